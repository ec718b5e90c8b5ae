// Fetching packets into a buffer: one after another, each tried until it comes or stops the fetch.
ghost use Rattle.std.specs.Prelude.{◌≡◌, ◌+◌, ◌^◌, ◌<◌, ◌≤◌, not, ◌&&◌, length, nat_lt};
ghost use Rattle.pipes.specs.Answers.{answer_number};
ghost use Rattle.host.specs.Fetching.{fetching, bytes_in, is_short, long_stop, in_judged, fetch_start, fetch_step, fetch_run, fetch_answer, fetch_event};
ghost use Rattle.host.specs.Sending.{none_yet};

use crate::tallies::Tally;
use crate::tries::most_tries;
use attempt::{Arrival, try_in};
use pipes::{Answer, Event, Pipe, Refusal};
use port::{Port, Toggle};

// How far a fetch has come.
#[derive(Clone, Copy)]
pub(crate) struct Intake {
    // bytes of the packets that were received
    pub(crate) received: usize,
    pub(crate) tally: Tally,
    // the toggle after the last try
    pub(crate) toggle: Toggle,
    // whether the last packet was shorter than the packet size
    pub(crate) ended: bool,
}

// How many bytes a try brought.
fn bytes_in(arrival: Arrival) -> usize
    ensures { result ≡ bytes_in arrival }
{
    match arrival {
        Arrival::Read(length) => length,
        Arrival::Nothing | Arrival::TooLong => 0,
    }
}

// Whether a packet came that is shorter than the packet size.
fn is_short(arrival: Arrival, size: u8) -> bool
    ensures { result ≡ is_short size arrival }
{
    matches!(arrival, Arrival::Read(length) if length < usize::from(size))
}

// Why a try stops the fetch, if it does: a packet that is too long does.
fn stop_after(arrival: Arrival, stop: Option<Refusal>) -> Option<Refusal>
    ensures { result ≡ long_stop arrival stop }
{
    match arrival {
        Arrival::Read(_) | Arrival::Nothing => stop,
        Arrival::TooLong => Some(Refusal::PacketTooLong),
    }
}

impl Intake {
    fn new(pipe: Pipe) -> Intake
        ensures { result ≡ fetch_start pipe.limit pipe.toggle }
    {
        Intake {
            received: 0,
            tally: Tally::new(pipe.limit),
            toggle: pipe.toggle,
            ended: false,
        }
    }

    // Whether more may come, there is room for it, and nothing has stopped the fetch.
    fn going(&self, length: usize) -> bool
        ensures { result ≡ (none_yet self.now.tally.stop && (not self.now.ended && nat_lt self.now.received length)) }
    {
        self.tally.stop.is_none() && !self.ended && self.received < length
    }

    // Notes the result of one try.
    fn note(&mut self, size: u8, limit: u8, code: u8, toggle: u8, arrival: Arrival)
        requires tries { self.old.tally.tries + 1 < 2 ^ 32 }
        requires received { self.old.received + bytes_in arrival < 2 ^ 64 }
        ensures { self.new ≡ in_judged size limit self.old code toggle arrival }
    {
        self.tally.note(limit, code);
        self.tally.stop = stop_after(arrival, self.tally.stop);
        self.received += bytes_in(arrival);
        self.toggle = Toggle::from(toggle);
        self.ended = is_short(arrival, size);
    }

    // One try of the next packet.
    fn step<P: Port>(&mut self, port: &mut P, pipe: Pipe, buffer: &mut [u8])
        requires tries { self.old.tally.tries + 1 < 2 ^ 32 }
        requires received { self.old.received ≤ length buffer.old }
        requires long { length buffer.old ≤ 1024 }
        ensures intake { self.new ≡ (fetch_step pipe.address pipe.endpoint pipe.size pipe.limit (fetching self.old buffer.old (P.meaning port.old))).intake }
        ensures buffer { buffer.new ≡ (fetch_step pipe.address pipe.endpoint pipe.size pipe.limit (fetching self.old buffer.old (P.meaning port.old))).buffer }
        ensures after { P.meaning port.new ≡ (fetch_step pipe.address pipe.endpoint pipe.size pipe.limit (fetching self.old buffer.old (P.meaning port.old))).bus }
    {
        let end = (self.received + usize::from(pipe.size)).min(buffer.len());
        let room = &mut buffer[self.received..end];
        let ((code, toggle), arrival) = try_in(
            port,
            pipe.address,
            pipe.endpoint,
            self.toggle,
            room,
        );
        self.note(pipe.size, pipe.limit, code, toggle, arrival);
    }
}

// Fetches packets into the buffer, as far as it goes.
pub(crate) fn fetch<P: Port>(port: &mut P, pipe: Pipe, buffer: &mut [u8]) -> Intake
    requires { length buffer.old ≤ 1024 }
    ensures intake { result ≡ (fetch_run pipe.address pipe.endpoint pipe.size pipe.limit pipe.toggle buffer.old (P.meaning port.old)).intake }
    ensures buffer { buffer.new ≡ (fetch_run pipe.address pipe.endpoint pipe.size pipe.limit pipe.toggle buffer.old (P.meaning port.old)).buffer }
    ensures after { P.meaning port.new ≡ (fetch_run pipe.address pipe.endpoint pipe.size pipe.limit pipe.toggle buffer.old (P.meaning port.old)).bus }
{
    let mut intake = Intake::new(pipe);
    let budget = most_tries(buffer.len(), pipe.limit);
    // a loop of its own, as a send has
    for _ in 0..budget {
        if !intake.going(buffer.len()) {
            return intake;
        }
        intake.step(port, pipe, buffer);
    }
    intake
}

// What is said of a fetch.
pub(crate) fn answer(intake: Intake) -> Answer
    ensures { result ≡ fetch_answer intake }
{
    Answer {
        received: intake.received,
        ..intake.tally.answer()
    }
}

// What came of a fetch, for the pipe's standing.
pub(crate) fn event(answer: Answer) -> Event
    ensures { result ≡ fetch_event (answer_number answer) }
{
    match answer.refusal {
        None => Event::Succeeded,
        Some(Refusal::Stalled) => Event::Stalled,
        Some(Refusal::PacketTooLong) => Event::LongPacket,
        Some(_) => Event::StoppedSure,
    }
}
