ghost use Rattle.std.specs.Prelude.{◌≡◌, ◌≤◌, min, length, take};

use super::Packet;
use port::registers::PACKET_MOST;

impl<'a> Packet<'a> {
    // The next packet of a message: its first `size` bytes, or all where there are fewer; 64 at most, whatever the size.
    pub fn cut(message: &'a [u8], size: usize) -> Packet<'a>
        ensures { result.bytes.now ≡ take (min size 64) message.now }
    {
        let length = size.min(PACKET_MOST).min(message.len());
        Packet {
            bytes: &message[..length],
        }
    }

    pub fn bytes(self) -> &'a [u8]
        ensures value { result.now ≡ self.entry.bytes.now }
        ensures small { length result.now ≤ 64 }
    {
        self.bytes
    }
}
