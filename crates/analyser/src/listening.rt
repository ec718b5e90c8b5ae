// Listening to a wire while something goes over it.
ghost use Rattle.std.specs.Prelude.{◌≡◌, [], ◌∷◌, Some};
ghost use Rattle.frames.specs.declared.duplexes.Duplex.TheVariants.{Full};
ghost use Rattle.frames.specs.Exchanges.{exchanged};
ghost use Rattle.analyser.specs.Messages.{message_answer};
ghost use Rattle.analyser.specs.Words.{flags_text};

use crate::exchanges::Exchange;
use crate::taps::Tap;
use frames::{FramedPort, Wire, exchange_layered};
use host::{Answer, Host, PipePlan};
use std::alloc::Global;
use std::fmt;

// What was heard of a message: its exchanges, and what the send answered.
#[derive(Debug, Drop)]
pub struct Overheard {
    pub frames: Vec<Exchange>,
    pub answer: Answer,
}

// Opens a pipe of an unused host and sends one message over it, by frames on this wire. The exchanges of the open are left out.
pub fn listen<W: Wire + Drop>(alloc: Global, wire: W, plan: PipePlan, message: &[u8]) -> Overheard
    ensures { result.answer ≡ message_answer plan message.now (W.meaning wire) }
{
    let mut host = Host::new(FramedPort::new(Tap::new(alloc, wire)));
    let _ = host.open(0, plan);
    let before = host.port().wire().seen().len();
    let answer = host.send(0, message);
    let (_, mut frames) = host.into_port().into_wire().into_parts();
    let _ = frames.drain(..before.min(frames.len()));
    Overheard { frames, answer }
}

// What comes back of a frame that gets the flags, through a wire over a framed port over another wire.
#[derive(Clone, Copy, Debug, PartialEq, Eq)]
pub struct Flags(pub [u8; 2]);

// The frame that gets the flags, through a wire over a framed port over this wire.
pub fn get_flags<W: Wire + Drop>(wire: W) -> Flags
    ensures { result.0 ≡ exchanged Full (0xC8 ∷ 0 ∷ []) (W.meaning wire) }
{
    let mut bytes = [0xc8, 0x00];
    let _ = exchange_layered(wire, &mut bytes);
    Flags(bytes)
}

impl fmt::Display for Flags {
    ghost output = { λ flags. Some (flags_text flags.0) };

    fn fmt<W: fmt::Write>(&self, f: &mut fmt::Formatter<W>) -> fmt::Result {
        let Flags([status, flags]) = self;
        write!(
            f,
            "The flags of R25 through a wire over a port over a wire: out c8 00, in {status:02x} {flags:02x}"
        )
    }
}
