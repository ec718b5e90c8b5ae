// The chip record in memory.
ghost use Rattle.std.specs.Prelude.{◌≡◌, ◌<◌, ◌≤◌};

use crate::inboxes::Inbox;
use crate::rooms::Room;
use port::Toggle;

mod methods;

#[derive(Drop)]
pub struct ChipRecord {
    sending: Room,
    count: u8,
    setup: Room,
    pub incoming: Inbox,
    address: u8,
    send_toggle: Toggle,
    receive_toggle: Toggle,
    result: u8,
    done: bool,
    free: bool,
    received: bool,
    ghost send_size: { sending.size ≡ 64 },
    ghost setup_size: { setup.size ≡ 8 },
    ghost count_most: { count ≤ 64 },
    ghost result_most: { result < 16 },
}
