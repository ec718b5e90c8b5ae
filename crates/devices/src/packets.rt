// One packet that waits at an IN endpoint.
ghost use Rattle.std.specs.Prelude.{◌≤◌, vec_len};

mod methods;

#[derive(Drop)]
pub(crate) struct Packet {
    bytes: Vec<u8>,
    ghost small: { vec_len bytes ≤ 64 },
}
