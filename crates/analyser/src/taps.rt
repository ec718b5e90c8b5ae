// A wire that keeps what went over it, as a logic analyser does.
ghost use Rattle.std.specs.Prelude.{◌≡◌, [], MatchResult};
ghost use Rattle.frames.specs.Exchanges.{exchanged, after_exchange};
ghost use Rattle.analyser.specs.Seen.{OneMore, OneMoreOrNone};

use crate::exchanges::Exchange;
use frames::Wire;
use std::alloc::{AllocError, Global};

#[derive(Drop)]
pub struct Tap<W> {
    wire: W,
    alloc: Global,
    seen: Vec<Exchange>,
}

impl<W> Tap<W> {
    pub fn new(alloc: Global, wire: W) -> Tap<W>
        ensures wire { result.wire ≡ wire }
        ensures seen { result.seen.items ≡ [] }
    {
        Tap {
            wire,
            alloc,
            seen: Vec::new(alloc),
        }
    }

    // What went over the wire, one exchange after another.
    pub fn seen(&self) -> &[Exchange]
        ensures { result.now ≡ self.now.seen.items }
    {
        &self.seen
    }

    // The wire, handed back, and what went over it.
    pub fn into_parts(self) -> (W, Vec<Exchange>)
        ensures { result ≡ record { 0 = self.wire; 1 = self.seen } }
    {
        (self.wire, self.seen)
    }

    // Keeps one exchange, unless there is no memory for it.
    pub(crate) fn keep(&mut self, sent: Vec<u8>, answered: &[u8]) -> Result<(), AllocError>
        ensures wire { self.new.wire ≡ self.old.wire }
        ensures seen { MatchResult result (λ _. OneMore sent.items answered.now self.old.seen.items self.new.seen.items) (λ _. self.new.seen.items ≡ self.old.seen.items) }
    {
        let answered = answered.to_vec(self.alloc)?;
        self.seen.push(Exchange { sent, answered })?;
        Ok(())
    }
}

impl<W: Wire> Wire for Tap<W> {
    ghost meaning = { λ s. W.meaning s.wire };

    ghost duplex = { λ s. W.duplex s.wire };

    ghost heard = { λ s bytes t. W.heard s.wire bytes t.wire };

    // One exchange over the wire, kept behind those before it, or left out where there is no memory for it.
    fn exchange(&mut self, bytes: &mut [u8])
        ensures answers { bytes.new ≡ exchanged (W.duplex self.old.wire) bytes.old (W.meaning self.old.wire) }
        ensures after { W.meaning self.new.wire ≡ after_exchange bytes.old (W.meaning self.old.wire) }
        ensures mode { W.duplex self.new.wire ≡ W.duplex self.old.wire }
        ensures sent { W.heard self.old.wire bytes.old self.new.wire }
        ensures seen { OneMoreOrNone bytes.old bytes.new self.old.seen.items self.new.seen.items }
    {
        let sent = bytes.to_vec(self.alloc);
        self.wire.exchange(bytes);
        if let Ok(sent) = sent {
            let _ = self.keep(sent, bytes);
        }
    }
}
