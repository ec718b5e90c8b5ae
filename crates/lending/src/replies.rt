// What is said of an outcome.
use host::{Answer, Looked, Refusal, Standing};
use service::Outcome;
use std::fmt;

#[derive(Drop)]
pub struct Reply<'a>(pub &'a Outcome);

// Why a call declined or stopped.
fn reason(refusal: Option<Refusal>) -> &'static str {
    match refusal {
        None => "done",
        Some(Refusal::PipeDoubtful) => "declined, the pipe is doubtful",
        Some(Refusal::PipeHalted) => "declined, the endpoint has halted",
        Some(Refusal::NakLimit) =>
            "stopped, the device said \"not now\" as often as the limit allows",
        Some(Refusal::ThirdMiss) => "stopped, the third try of a packet got no answer",
        Some(Refusal::Stalled) => "stopped, the endpoint has halted",
        Some(Refusal::PacketTooLong) => "stopped, a packet was too long",
        Some(_) => "declined",
    }
}

fn standing(standing: Standing) -> &'static str {
    match standing {
        Standing::InStep => "in step",
        Standing::Doubtful => "doubtful",
        Standing::Halted => "halted",
    }
}

// An open, a recover or a close, and a send that sent nothing.
fn answered<W: fmt::Write>(answer: &Answer, f: &mut fmt::Formatter<W>) -> fmt::Result {
    let reason = reason(answer.refusal);
    write!(
        f,
        "  answer {}, tries {}: {reason}",
        answer.number(),
        answer.tries
    )
}

fn sent<W: fmt::Write>(answer: &Answer, f: &mut fmt::Formatter<W>) -> fmt::Result {
    answered(answer, f)?;
    write!(
        f,
        "; {} bytes sent, {} uncertain",
        answer.sent, answer.doubtful
    )
}

fn received<W: fmt::Write>(answer: &Answer, f: &mut fmt::Formatter<W>) -> fmt::Result {
    answered(answer, f)?;
    write!(f, "; {} bytes received", answer.received)
}

fn shown<W: fmt::Write>(looked: &Looked, f: &mut fmt::Formatter<W>) -> fmt::Result {
    let standing = standing(looked.standing);
    write!(
        f,
        "  answer 0: {standing}, at DATA{}",
        u8::from(looked.toggle)
    )
}

impl fmt::Display for Reply<'_> {
    fn fmt<W: fmt::Write>(&self, f: &mut fmt::Formatter<W>) -> fmt::Result {
        match self.0 {
            Outcome::Answered(answer) if answer.sent > 0 || answer.doubtful > 0 => sent(answer, f),
            Outcome::Answered(answer) => answered(answer, f),
            Outcome::Fetched(answer, _) => received(answer, f),
            Outcome::Shown(Ok(looked)) => shown(looked, f),
            Outcome::Shown(Err(refusal)) => {
                write!(f, "  answer {}: no pipe, at DATA0", refusal.number())
            }
        }
    }
}
