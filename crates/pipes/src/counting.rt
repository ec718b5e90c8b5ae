// Counting the tries of one packet, or of one stage of a control request.
ghost use Rattle.std.specs.Prelude.{◌≡◌};
ghost use Rattle.pipes.specs.Counting.{fresh_counts, verdict, counted, succeeded, stop_of};

use crate::refusals::Refusal;
use port::results::{NAK, STALL, SUCCESS};

// the tries without an answer that stop a packet or stage
const MISSES: u8 = 3;

#[derive(Clone, Copy, Debug, PartialEq, Eq)]
pub struct Counts {
    // how many misses are left, the last of which stops
    pub misses: u8,
    // how many NAKs are left, the last of which stops
    pub naks: u8,
    // whether any try was a miss
    pub missed: bool,
}

// What a result code means for the packet or stage: three cases, so neither an `Option` nor a `Result`.
#[derive(Clone, Copy, Debug, PartialEq, Eq)]
pub enum Verdict {
    Succeeded,
    Again,
    Stop(Refusal),
}

impl Verdict {
    pub fn succeeded(self) -> bool
        ensures { result ≡ succeeded self }
    {
        matches!(self, Verdict::Succeeded)
    }

    // Why it stops, if it does.
    pub fn refusal(self) -> Option<Refusal>
        ensures { result ≡ stop_of self }
    {
        match self {
            Verdict::Stop(refusal) => Some(refusal),
            Verdict::Succeeded | Verdict::Again => None,
        }
    }
}

impl Counts {
    // Nothing counted yet.
    pub fn new(limit: u8) -> Counts
        ensures { result ≡ fresh_counts limit }
    {
        Counts {
            misses: MISSES,
            naks: limit,
            missed: false,
        }
    }

    // Counts one result code. Every code but a success, a NAK and a STALL is a miss.
    pub fn judge(&mut self, code: u8) -> Verdict
        ensures verdict { result ≡ verdict code self.old }
        ensures counts { self.new ≡ counted code self.old }
    {
        match code {
            SUCCESS => Verdict::Succeeded,
            STALL => Verdict::Stop(Refusal::Stalled),
            NAK if self.naks <= 1 => Verdict::Stop(Refusal::NakLimit),
            NAK => {
                self.naks -= 1;
                Verdict::Again
            }
            _ if self.misses <= 1 => {
                self.missed = true;
                Verdict::Stop(Refusal::ThirdMiss)
            }
            _ => {
                self.misses -= 1;
                self.missed = true;
                Verdict::Again
            }
        }
    }
}
