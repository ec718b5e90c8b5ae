ghost use Rattle.std.specs.Prelude.{◌≡◌, [], length, drop, IfOk, if◌then◌else◌, nat_lt, slice_index};
ghost use Rattle.parts.specs.Records.{inbox_bytes};

use super::Inbox;
use crate::rooms::Room;
use port::registers::PACKET_MOST;
use std::alloc::{AllocError, Global};

impl Inbox {
    pub(crate) fn new(alloc: Global) -> Result<Inbox, AllocError>
        ensures { IfOk result (λ inbox. inbox_bytes inbox ≡ []) }
    {
        let room = Room::new(alloc, PACKET_MOST)?;
        Ok(Inbox { room, read: 0 })
    }

    // These bytes in place of what was there; nothing where they are more than a packet has.
    pub fn fill(&mut self, bytes: &[u8])
        ensures { inbox_bytes self.new ≡ (if nat_lt 64 (length bytes.now) then [] else bytes.now) }
    {
        self.clear();
        let _ = self.room.append(bytes);
    }

    pub(crate) fn clear(&mut self)
        ensures bytes { inbox_bytes self.new ≡ [] }
        ensures start { self.new.read ≡ 0 }
    {
        self.read = 0;
        self.room.clear();
    }

    // The next byte, 0 if none is left.
    pub(crate) fn take(&mut self) -> u8
        ensures value { result ≡ slice_index (inbox_bytes self.old) 0 }
        ensures after { inbox_bytes self.new ≡ drop 1 (inbox_bytes self.old) }
    {
        let bytes = self.room.as_slice();
        if self.read >= bytes.len() {
            return 0;
        }
        let byte = bytes[self.read];
        self.read += 1;
        byte
    }

    // How many bytes are left.
    pub(crate) fn left(&self) -> u8
        ensures { result ≡ length (inbox_bytes self.now) }
    {
        (self.room.as_slice().len() - self.read) as u8
    }
}
