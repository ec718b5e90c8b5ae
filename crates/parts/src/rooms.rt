// A buffer of a fixed size whose memory is got once, so that nothing put into it later can fail. It has no model: of what was refused it is
// promised that the very same memory is left, and two rooms of the same bytes and size need not be that.
ghost use Rattle.std.specs.Prelude.{◌≤◌, vec_len, vec_capacity};

mod methods;

#[derive(Drop)]
pub struct Room {
    bytes: Vec<u8>,
    // how many bytes fit; kept beside them, since the library does not promise that a capacity stays as it was got
    size: usize,
    ghost fits: { (vec_len bytes ≤ size) × (size ≤ vec_capacity bytes) },
}
