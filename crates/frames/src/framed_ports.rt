// A port over any wire: each access of the port goes over the wire in frames.
ghost use Rattle.std.specs.Prelude.{◌≡◌, ◌+◌, ◌≤◌, [], ◌∷◌, length, take, IsTrue};
ghost use Rattle.port.specs.Accesses.{after_put, got, after_get, after_puts, gots, after_gets};
ghost use Rattle.frames.specs.Asked.{asked, puts, gets};
ghost use Rattle.frames.specs.Exchanges.{exchanged, after_exchange};
ghost use Rattle.frames.specs.Format.{count_of, frame_of, framed};
ghost use Rattle.frames.specs.Pieces.{frame_size, frames_of};
ghost use Rattle.frames.specs.Chains.{Chain};
ghost use Rattle.frames.specs.contracts.framed_ports.FramedPort.{the_row};
ghost use Rattle.std.specs.Borrow.{sem, follows};

use crate::formats::{Access, BODY_MOST, FRAME_MOST, write_frame};
use crate::registers::{Register, stays};
use crate::wires::Wire;
use port::Port;

#[derive(Drop)]
pub struct FramedPort<W> {
    wire: W,
}

// The most data bytes that one frame carries to or from a register.
fn most(register: Register) -> usize
    ensures { result ≡ frame_size register.number }
{
    if stays(register.number) { BODY_MOST } else { 1 }
}

// One frame, written to the front of the buffer and exchanged there. Gives its length.
fn exchange_frame<W: Wire>(wire: &mut W, access: Access, buffer: &mut [u8; FRAME_MOST]) -> usize
    requires { IsTrue (framed (asked access)) }
    ensures length { result ≡ 1 + count_of (asked access.entry) }
    ensures answers { take result buffer.new ≡ exchanged (W.duplex wire.old) (frame_of (asked access.entry)) (W.meaning wire.old) }
    ensures after { W.meaning wire.new ≡ after_exchange (frame_of (asked access.entry)) (W.meaning wire.old) }
    ensures mode { W.duplex wire.new ≡ W.duplex wire.old }
    ensures sent { W.heard wire.old (frame_of (asked access.entry)) wire.new }
{
    let length = write_frame(access, buffer);
    wire.exchange(&mut buffer[..length]);
    length
}

// One frame of bytes to put.
fn put_piece<W: Wire>(wire: &mut W, register: Register, piece: &[u8])
    requires { length piece.now ≤ frame_size register.number }
    ensures after { W.meaning wire.new ≡ after_puts register.number piece.now (W.meaning wire.old) }
    ensures mode { W.duplex wire.new ≡ W.duplex wire.old }
    ensures sent { W.heard wire.old (frame_of (puts register.number piece.now)) wire.new }
{
    let access = Access::Put {
        register: register.number,
        bytes: piece,
    };
    exchange_frame(wire, access, &mut [0; FRAME_MOST]);
}

// One frame of bytes to get.
fn get_piece<W: Wire>(wire: &mut W, register: Register, piece: &mut [u8])
    requires { length piece.old ≤ frame_size register.number }
    ensures bytes { piece.new ≡ gots register.number (length piece.old) (W.meaning wire.old) }
    ensures after { W.meaning wire.new ≡ after_gets register.number (length piece.old) (W.meaning wire.old) }
    ensures mode { W.duplex wire.new ≡ W.duplex wire.old }
    ensures sent { W.heard wire.old (frame_of (gets register.number (length piece.old))) wire.new }
{
    let access = Access::Get {
        register: register.number,
        count: piece.len(),
    };
    let mut buffer = [0; FRAME_MOST];
    let length = exchange_frame(wire, access, &mut buffer);
    piece.copy_from_slice(&buffer[1..length]);
}

impl<W: Wire> FramedPort<W> {
    pub fn new(wire: W) -> FramedPort<W>
        ensures { result ≡ record { wire = wire } }
    {
        FramedPort { wire }
    }

    // The wire, handed back.
    pub fn into_wire(self) -> W
        ensures { result ≡ self.wire }
    {
        self.wire
    }

    // The wire, to look at.
    pub fn wire(&self) -> &W
        ensures { result.now ≡ self.now.wire }
    {
        &self.wire
    }

    // The wire, to be used by itself between accesses: the port then goes over the wire as it was left.
    pub fn wire_mut(&mut self) -> &mut W
        ensures value { result.now ≡ self.old.wire }
        ensures* back { sem 𝓛 (follows (the_row W.row) W.row self.entry.ghost_name result.ghost_name (λ w. record { wire = w })) }
    {
        &mut self.wire
    }
}

impl<W: Wire> Port for FramedPort<W> {
    ghost meaning = { λ s. W.meaning s.wire };

    // One byte put to a register, in one frame.
    fn put(&mut self, register: u8, value: u8)
        ensures after { W.meaning self.new.wire ≡ after_put register value (W.meaning self.old.wire) }
        ensures mode { W.duplex self.new.wire ≡ W.duplex self.old.wire }
        ensures sent { Chain W.heard (frames_of (puts register (value ∷ []))) self.old.wire self.new.wire }
    {
        self.put_many(register, &[value]);
    }

    // One byte from a register, in one frame.
    fn get(&mut self, register: u8) -> u8
        ensures value { result ≡ got register (W.meaning self.old.wire) }
        ensures after { W.meaning self.new.wire ≡ after_get register (W.meaning self.old.wire) }
        ensures mode { W.duplex self.new.wire ≡ W.duplex self.old.wire }
        ensures sent { Chain W.heard (frames_of (gets register 1)) self.old.wire self.new.wire }
    {
        let mut byte = [0];
        self.get_many(register, &mut byte);
        byte[0]
    }

    // The bytes, put to one register, and the frames that carry them.
    fn put_many(&mut self, register: u8, bytes: &[u8])
        ensures after { W.meaning self.new.wire ≡ after_puts register bytes.now (W.meaning self.old.wire) }
        ensures mode { W.duplex self.new.wire ≡ W.duplex self.old.wire }
        ensures sent { Chain W.heard (frames_of (puts register bytes.now)) self.old.wire self.new.wire }
    {
        let Some(register) = Register::new(register) else {
            return;
        };
        for piece in bytes.chunks(most(register)) {
            put_piece(&mut self.wire, register, piece);
        }
    }

    // As many bytes as the slice has places, from one register, and the frames that carry them.
    fn get_many(&mut self, register: u8, into: &mut [u8])
        ensures bytes { into.new ≡ gots register (length into.old) (W.meaning self.old.wire) }
        ensures after { W.meaning self.new.wire ≡ after_gets register (length into.old) (W.meaning self.old.wire) }
        ensures mode { W.duplex self.new.wire ≡ W.duplex self.old.wire }
        ensures sent { Chain W.heard (frames_of (gets register (length into.old))) self.old.wire self.new.wire }
    {
        let Some(register) = Register::new(register) else {
            into.fill(0);
            return;
        };
        let size = most(register);
        // by ranges: after a loop over `chunks_mut` only the length of the slice would be known
        for start in (0..into.len()).step_by(size) {
            let end = into.len().min(start + size);
            get_piece(&mut self.wire, register, &mut into[start..end]);
        }
    }
}
