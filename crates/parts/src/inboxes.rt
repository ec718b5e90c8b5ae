// The receive buffer: the bytes of one packet, and how many of them were taken. A place beside the bytes, and no queue: a packet is
// copied in at once, and a byte is read in fewer steps.
ghost use Rattle.std.specs.Prelude.{◌≡◌, ◌≤◌, vec_len};

use crate::rooms::Room;

mod methods;

#[derive(Drop)]
pub struct Inbox {
    room: Room,
    read: usize,
    ghost within: { read ≤ vec_len room.bytes },
    ghost size: { room.size ≡ 64 },
}
