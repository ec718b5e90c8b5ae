// What is said of a try, and of the answers of the host.
use host::{Answer, Refusal};
use port::Fate;
use port::results::{NAK, STALL, SUCCESS, WRONG_TOGGLE};
use std::{fmt, io};

// One try: what was sent or asked for, what became of it on the bus, and the result code that the chip gave.
#[derive(Drop)]
pub struct Tried<'a> {
    pub what: &'a str,
    pub fate: Fate,
    pub code: u8,
}

fn on_the_bus(fate: Fate) -> &'static str {
    match fate {
        Fate::Arrives => "arrives",
        Fate::Lost(_) => "is lost on the way",
        Fate::Unheard(_) => "arrives, but the acknowledgement is lost",
        Fate::Nak => "finds the device busy",
        Fate::Stall => "finds the endpoint halted",
    }
}

fn verdict(code: u8) -> &'static str {
    match code {
        SUCCESS => "done",
        NAK => "busy (NAK)",
        STALL => "halted (STALL)",
        WRONG_TOGGLE => "wrong toggle",
        _ => "no answer heard",
    }
}

impl fmt::Display for Tried<'_> {
    fn fmt<W: fmt::Write>(&self, f: &mut fmt::Formatter<W>) -> fmt::Result {
        let bus = on_the_bus(self.fate);
        let verdict = verdict(self.code);
        write!(f, "  {}: {bus}; result {}, {verdict}", self.what, self.code)
    }
}

// Why a call of the host declined or stopped.
fn reason(refusal: Option<Refusal>) -> &'static str {
    match refusal {
        None => "done",
        Some(Refusal::PipeDoubtful) => "declined, the pipe is in doubt",
        Some(Refusal::PipeHalted) => "declined, the endpoint has halted",
        Some(Refusal::NakLimit) => "stopped, the printer stayed busy",
        Some(Refusal::ThirdMiss) => "stopped, the third try of a packet got no answer",
        Some(Refusal::Stalled) => "stopped, the endpoint has halted",
        Some(_) => "declined",
    }
}

// An open or a recover.
pub fn tell_cleared(rt: &HostRuntime, answer: Answer) -> io::Result<()> {
    let reason = reason(answer.refusal);
    println!(rt;
        "  answer {} (tries {}): {reason}",
        answer.number(),
        answer.tries
    )
}

// A send.
pub fn tell_sent(rt: &HostRuntime, answer: Answer) -> io::Result<()> {
    let reason = reason(answer.refusal);
    println!(rt;
        "  answer {} (tries {}): {reason}; {} bytes sent, {} uncertain",
        answer.number(),
        answer.tries,
        answer.sent,
        answer.doubtful,
    )
}
