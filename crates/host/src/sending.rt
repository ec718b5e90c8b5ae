// Sending a message: packet after packet, each tried until it succeeds or stops the send.
ghost use Rattle.std.specs.Prelude.{◌≡◌, ◌+◌, ◌^◌, ◌<◌, ◌≤◌, ◌&&◌, length, nat_lt};
ghost use Rattle.host.specs.Sending.{sending, none_yet, judged, send_start, send_step, send_run, send_answer, send_event};
ghost use Rattle.pipes.specs.Answers.{answer_number};

use crate::tallies::Tally;
use crate::tries::most_tries;
use attempt::{Packet, try_out};
use pipes::{Answer, Event, Pipe, Refusal};
use port::{Port, Toggle};

// How far a send has come.
#[derive(Clone, Copy)]
pub(crate) struct Progress {
    // bytes of the packets that were acknowledged
    pub(crate) sent: usize,
    pub(crate) tally: Tally,
    // the toggle after the last try
    pub(crate) toggle: Toggle,
}

impl Progress {
    fn new(pipe: Pipe) -> Progress
        ensures { result ≡ send_start pipe }
    {
        Progress {
            sent: 0,
            tally: Tally::new(pipe.limit),
            toggle: pipe.toggle,
        }
    }

    // Whether there is more to send and nothing has stopped it.
    fn going(&self, length: usize) -> bool
        ensures { result ≡ (none_yet self.now.tally.stop && nat_lt self.now.sent length) }
    {
        self.tally.stop.is_none() && self.sent < length
    }

    // Notes the result of one try of a packet of this length.
    fn note(&mut self, limit: u8, length: usize, code: u8, toggle: u8)
        requires tries { self.old.tally.tries + 1 < 2 ^ 32 }
        requires sent { self.old.sent + length < 2 ^ 64 }
        ensures { self.new ≡ judged limit self.old length code toggle }
    {
        if self.tally.note(limit, code) {
            self.sent += length;
        }
        self.toggle = Toggle::from(toggle);
    }

    // One try of the present packet.
    fn step<P: Port>(&mut self, port: &mut P, pipe: Pipe, message: &[u8])
        requires tries { self.old.tally.tries + 1 < 2 ^ 32 }
        requires sent { self.old.sent ≤ length message.now }
        ensures progress { self.new ≡ (send_step pipe message.now (sending self.old (P.meaning port.old))).progress }
        ensures after { P.meaning port.new ≡ (send_step pipe message.now (sending self.old (P.meaning port.old))).bus }
    {
        let packet = Packet::cut(&message[self.sent..], usize::from(pipe.size));
        let length = packet.bytes().len();
        let (code, toggle) = try_out(port, pipe.address, pipe.endpoint, self.toggle, packet);
        self.note(pipe.limit, length, code, toggle);
    }
}

// Sends the message over the pipe, as far as it goes.
pub(crate) fn send<P: Port>(port: &mut P, pipe: Pipe, message: &[u8]) -> Progress
    requires { length message.now ≤ 1024 }
    ensures progress { result ≡ (send_run pipe message.now (P.meaning port.old)).progress }
    ensures after { P.meaning port.new ≡ (send_run pipe message.now (P.meaning port.old)).bus }
    ensures within { result.sent ≤ length message.now }
{
    let mut progress = Progress::new(pipe);
    let budget = most_tries(message.len(), pipe.limit);
    // a loop of its own: for one that send, fetch and open share, each machine would have to hold port, pipe and bytes
    for _ in 0..budget {
        if !progress.going(message.len()) {
            return progress;
        }
        progress.step(port, pipe, message);
    }
    progress
}

// What is said of a send.
pub(crate) fn answer(progress: Progress, pipe: Pipe, message: &[u8]) -> Answer
    requires { progress.sent ≤ length message.now }
    ensures { result ≡ send_answer pipe message.now progress }
{
    let packet = Packet::cut(&message[progress.sent..], usize::from(pipe.size));
    let doubtful = if progress.tally.stop.is_some() && progress.tally.counts.missed {
        packet.bytes().len()
    } else {
        0
    };
    Answer {
        sent: progress.sent,
        doubtful,
        ..progress.tally.answer()
    }
}

// What came of a send, for the pipe's standing.
pub(crate) fn event(answer: Answer) -> Event
    ensures { result ≡ send_event (answer_number answer) answer.doubtful }
{
    match answer.refusal {
        None => Event::Succeeded,
        Some(Refusal::Stalled) => Event::Stalled,
        Some(_) if answer.doubtful > 0 => Event::StoppedUnsure,
        Some(_) => Event::StoppedSure,
    }
}
