// The bytes of one OUT packet: at most 64.
ghost use Rattle.std.specs.Prelude.{◌≤◌, length};

mod methods;

#[derive(Clone, Copy)]
pub struct Packet<'a> {
    bytes: &'a [u8],
    ghost small: { length bytes.now ≤ 64 },
}
