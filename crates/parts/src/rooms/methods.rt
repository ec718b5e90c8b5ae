ghost use Rattle.std.specs.Prelude.{◌≡◌, ◌+◌, ◌≤◌, not, [], ◌++◌, length, IfOk, if◌then◌else◌, nat_lt};
ghost use Rattle.port.specs.Chip.{loaded, filled};
ghost use Rattle.parts.specs.Rooms.{room_bytes, room_size, Holds};

use super::Room;
use std::alloc::{AllocError, Global};

impl Room {
    // An empty room of this size.
    pub fn new(alloc: Global, size: usize) -> Result<Room, AllocError>
        ensures { IfOk result (Holds [] size) }
    {
        let bytes = Vec::with_capacity(alloc, size)?;
        Ok(Room { bytes, size })
    }

    pub fn as_slice(&self) -> &[u8]
        ensures { result.now ≡ room_bytes self.now }
    {
        self.bytes.as_slice()
    }

    pub fn size(&self) -> usize
        ensures { result ≡ room_size self.now }
    {
        self.size
    }

    // One byte more at the end; it is dropped where the room is full.
    pub(crate) fn load(&mut self, byte: u8)
        ensures { Holds (loaded (room_size self.old) byte (room_bytes self.old)) (room_size self.old) self.new }
    {
        if self.bytes.len() < self.size {
            self.bytes.push_reserved(byte);
        }
    }

    // These bytes more at the end; none of them where they do not all fit. Whether they fit: an answer and no failure, since a full endpoint
    // says NAK.
    pub fn append(&mut self, bytes: &[u8]) -> bool
        ensures fits { result ≡ not (nat_lt (room_size self.old) (length (room_bytes self.old) + length bytes.now)) }
        ensures after { Holds (if result then room_bytes self.old ++ bytes.now else room_bytes self.old) (room_size self.old) self.new }
    {
        if bytes.len() > self.size - self.bytes.len() {
            return false;
        }
        let _ = self.bytes.extend_from_slice(bytes);
        true
    }

    // The first `n` bytes, with zeros where there are fewer.
    pub(crate) fn fill_to(&mut self, n: usize)
        requires { n ≤ room_size self.old }
        ensures { Holds (filled n (room_bytes self.old)) (room_size self.old) self.new }
    {
        let _ = self.bytes.resize(n, 0);
    }

    pub(crate) fn clear(&mut self)
        ensures { Holds [] (room_size self.old) self.new }
    {
        self.bytes.clear();
    }
}
