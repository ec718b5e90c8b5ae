// A pipe: the host's side of one device endpoint.
ghost use Rattle.std.specs.Prelude.{◌≡◌};
ghost use Rattle.pipes.specs.Standings.{next_standing};
ghost use Rattle.pipes.specs.Tables.{new_pipe};

use port::{Direction, Toggle};

// How the host stands to the endpoint of a pipe.
#[derive(Clone, Copy, Debug, PartialEq, Eq)]
pub enum Standing {
    // host and device agree on the toggle
    InStep,
    // the device may have taken a packet that was not acknowledged, or sent one that was not read
    Doubtful,
    // the device answered STALL
    Halted,
}

// What came of a call on a pipe.
#[derive(Clone, Copy, Debug, PartialEq, Eq)]
pub enum Event {
    // it succeeded
    Succeeded,
    // a send or a fetch stopped with nothing doubtful
    StoppedSure,
    // a send stopped with bytes that the device may have taken
    StoppedUnsure,
    // the device answered STALL
    Stalled,
    // a fetch met a packet that is longer than the packet size
    LongPacket,
    // a recover did not succeed
    RecoverFailed,
}

impl Standing {
    // The standing after an event, from the one before it.
    pub fn advance(&mut self, event: Event)
        ensures { self.new ≡ next_standing self.old event }
    {
        *self = match (*self, event) {
            (_, Event::Succeeded) => Standing::InStep,
            (standing, Event::StoppedSure) => standing,
            (_, Event::StoppedUnsure | Event::LongPacket | Event::RecoverFailed) =>
                Standing::Doubtful,
            (_, Event::Stalled) => Standing::Halted,
        };
    }
}

// What a pipe is opened with.
#[derive(Clone, Copy, Debug, PartialEq, Eq)]
pub struct PipePlan {
    pub address: u8,
    pub endpoint: u8,
    pub direction: Direction,
    // the packet size: 8, 16, 32 or 64
    pub size: u8,
    // how many NAKs of one packet or stage stop a call
    pub limit: u8,
}

// What the table keeps: a plain record, which has the numbers of its plan by themselves, as every definition reads them.
#[derive(Clone, Copy, Debug, PartialEq, Eq)]
pub struct Pipe {
    pub address: u8,
    pub endpoint: u8,
    pub direction: Direction,
    // the packet size: 8, 16, 32 or 64
    pub size: u8,
    // how many NAKs of one packet or stage stop a call
    pub limit: u8,
    pub toggle: Toggle,
    pub standing: Standing,
}

impl Pipe {
    // A new pipe: in step, with DATA0.
    pub(crate) fn new(plan: PipePlan) -> Pipe
        ensures { result ≡ new_pipe plan.address plan.endpoint plan.direction plan.size plan.limit }
    {
        Pipe {
            address: plan.address,
            endpoint: plan.endpoint,
            direction: plan.direction,
            size: plan.size,
            limit: plan.limit,
            toggle: Toggle::Data0,
            standing: Standing::InStep,
        }
    }
}
