// How many tries a call may make.
ghost use Rattle.std.specs.Prelude.{◌≡◌, ◌+◌, ◌*◌, ◌≤◌};

// No call needs more tries than this for so many packets or stages: three misses and the NAKs of the limit for each.
pub(crate) fn most_tries(count: usize, limit: u8) -> u32
    requires { count ≤ 1024 }
    ensures { result ≡ count * (limit + 3) }
{
    count as u32 * (u32::from(limit) + 3)
}
