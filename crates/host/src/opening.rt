// The clear request, which opens and recovers a pipe: SETUP, then HS-IN, each tried until it succeeds or stops it.
ghost use Rattle.std.specs.Prelude.{◌≡◌, ◌+◌, ◌^◌, ◌<◌, not, ◌&&◌};
ghost use Rattle.host.specs.Opening.{requesting, endpoint_byte, clear_request, next_stage, is_done, stage_judged, clear_start, clear_step, clear_run};
ghost use Rattle.host.specs.Sending.{none_yet};

use crate::tallies::Tally;
use crate::tries::most_tries;
use attempt::{try_hs_in, try_setup};
use pipes::Pipe;
use port::registers::SETUP_LENGTH;
use port::{Direction, Port};

// the stages that are tried
const STAGES: usize = 2;

#[derive(Clone, Copy, Debug, PartialEq, Eq)]
pub(crate) enum Stage {
    Setup,
    Handshake,
    Done,
}

// How far the request has come.
#[derive(Clone, Copy)]
pub(crate) struct Clearing {
    pub(crate) stage: Stage,
    pub(crate) tally: Tally,
}

impl Stage {
    fn next(self) -> Stage
        ensures { result ≡ next_stage self }
    {
        match self {
            Stage::Setup => Stage::Handshake,
            Stage::Handshake | Stage::Done => Stage::Done,
        }
    }

    fn is_done(self) -> bool
        ensures { result ≡ is_done self }
    {
        matches!(self, Stage::Done)
    }
}

fn endpoint_byte(endpoint: u8, direction: Direction) -> u8
    ensures { result ≡ endpoint_byte endpoint direction }
{
    match direction {
        Direction::Out => endpoint % 16,
        Direction::In => 0x80 + endpoint % 16,
    }
}

// The eight bytes that ask a device to clear an endpoint's halt and its toggle.
fn clear_request(endpoint: u8, direction: Direction) -> [u8; SETUP_LENGTH]
    ensures { result ≡ clear_request endpoint direction }
{
    let named = endpoint_byte(endpoint, direction);
    [0x02, 0x01, 0, 0, named, 0, 0, 0]
}

impl Clearing {
    fn new(limit: u8) -> Clearing
        ensures { result ≡ clear_start limit }
    {
        Clearing {
            stage: Stage::Setup,
            tally: Tally::new(limit),
        }
    }

    // Whether a stage is left and nothing has stopped it.
    fn going(&self) -> bool
        ensures { result ≡ (none_yet self.now.tally.stop && not (is_done self.now.stage)) }
    {
        self.tally.stop.is_none() && !self.stage.is_done()
    }

    // Notes the result of one try of the present stage.
    fn note(&mut self, limit: u8, code: u8)
        requires { self.old.tally.tries + 1 < 2 ^ 32 }
        ensures { self.new ≡ stage_judged limit self.old code }
    {
        if self.tally.note(limit, code) {
            self.stage = self.stage.next();
        }
    }

    // One try of the present stage.
    fn step<P: Port>(&mut self, port: &mut P, pipe: Pipe)
        requires { self.old.tally.tries + 1 < 2 ^ 32 }
        ensures clearing { self.new ≡ (clear_step pipe.address pipe.endpoint pipe.direction pipe.limit (requesting self.old (P.meaning port.old))).clearing }
        ensures after { P.meaning port.new ≡ (clear_step pipe.address pipe.endpoint pipe.direction pipe.limit (requesting self.old (P.meaning port.old))).bus }
    {
        // a match on the stage, since an open is a machine that makes one try at a time
        let (code, _) = match self.stage {
            Stage::Setup => {
                let request = clear_request(pipe.endpoint, pipe.direction);
                try_setup(port, pipe.address, &request)
            }
            Stage::Handshake | Stage::Done => try_hs_in(port, pipe.address),
        };
        self.note(pipe.limit, code);
    }
}

// Asks the device to clear the pipe's endpoint, as far as it goes.
pub(crate) fn clear<P: Port>(port: &mut P, pipe: Pipe) -> Clearing
    ensures clearing { result ≡ (clear_run pipe.address pipe.endpoint pipe.direction pipe.limit (P.meaning port.old)).clearing }
    ensures after { P.meaning port.new ≡ (clear_run pipe.address pipe.endpoint pipe.direction pipe.limit (P.meaning port.old)).bus }
{
    let mut clearing = Clearing::new(pipe.limit);
    let budget = most_tries(STAGES, pipe.limit);
    // a loop of its own, as a send has
    for _ in 0..budget {
        if !clearing.going() {
            return clearing;
        }
        clearing.step(port, pipe);
    }
    clearing
}
