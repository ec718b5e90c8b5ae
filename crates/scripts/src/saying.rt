// What a line of a script prints.
ghost use Rattle.std.specs.Prelude.{◌≡◌, Some};
ghost use Rattle.scripts.specs.Saying.{said_text, rest_text, tries_text, part_word, verb_word, verb_of, pipe_of, standing_word};
ghost use Rattle.service.specs.Asks.{replied};

use crate::hexes::Hex;
use bench::SetupError;
use host::{Answer, Standing};
use service::{Call, Outcome};
use std::fmt;

// What a set-up line adds to the bus.
#[derive(Clone, Copy, Debug, PartialEq, Eq)]
pub enum Part {
    Endpoint,
    Packet,
    Fates,
}

impl fmt::Display for Part {
    ghost output = { λ part. Some (part_word part) };

    fn fmt<W: fmt::Write>(&self, f: &mut fmt::Formatter<W>) -> fmt::Result {
        match self {
            Part::Endpoint => write!(f, "cell"),
            Part::Packet => write!(f, "wait"),
            Part::Fates => write!(f, "fates"),
        }
    }
}

// Which call of the host was made.
#[derive(Clone, Copy, Debug, PartialEq, Eq)]
pub enum Verb {
    Open,
    Send,
    Fetch,
    Recover,
    Look,
    Close,
}

impl fmt::Display for Verb {
    ghost output = { λ verb. Some (verb_word verb) };

    fn fmt<W: fmt::Write>(&self, f: &mut fmt::Formatter<W>) -> fmt::Result {
        match self {
            Verb::Open => write!(f, "open"),
            Verb::Send => write!(f, "send"),
            Verb::Fetch => write!(f, "fetch"),
            Verb::Recover => write!(f, "recover"),
            Verb::Look => write!(f, "look"),
            Verb::Close => write!(f, "close"),
        }
    }
}

impl Verb {
    // Which call it is.
    pub(crate) fn of(call: &Call) -> Verb
        ensures { result ≡ verb_of call.now }
    {
        match call {
            Call::Open { .. } => Verb::Open,
            Call::Send { .. } => Verb::Send,
            Call::Fetch { .. } => Verb::Fetch,
            Call::Recover { .. } => Verb::Recover,
            Call::Look { .. } => Verb::Look,
            Call::Close { .. } => Verb::Close,
        }
    }
}

// The pipe that a call is for.
pub(crate) fn pipe_of(call: &Call) -> u8
    ensures { result ≡ pipe_of call.now }
{
    match call {
        Call::Open { number, .. }
        | Call::Send { number, .. }
        | Call::Fetch { number, .. }
        | Call::Recover { number }
        | Call::Look { number }
        | Call::Close { number } => *number,
    }
}

#[derive(Debug, PartialEq, Eq, Drop)]
pub enum Said {
    Nothing,
    // a set-up line that was done, and one that was refused
    Added(Part),
    Refused(Part),
    // a put, and a get
    Put {
        register: u8,
        value: u8,
    },
    Got {
        register: u8,
        value: u8,
    },
    // the bytes that an exchange on the wire left
    Exchanged(Vec<u8>),
    // what came of a call
    Called {
        verb: Verb,
        pipe: u8,
        outcome: Outcome,
    },
    // the endpoints, and how many fates are left
    Shown(String),
}

fn standing_word(standing: Standing) -> &'static str
    ensures { result.now ≡ standing_word standing }
{
    match standing {
        Standing::InStep => "in-step",
        Standing::Doubtful => "doubtful",
        Standing::Halted => "halted",
    }
}

// The launches of a call.
#[derive(Clone, Copy)]
struct Tries(Answer);

impl fmt::Display for Tries {
    ghost output = { λ tries. Some (tries_text tries.0) };

    fn fmt<W: fmt::Write>(&self, f: &mut fmt::Formatter<W>) -> fmt::Result {
        let Tries(answer) = self;
        write!(f, "tries {} last {}", answer.tries, answer.last)
    }
}

// What is printed of an outcome behind its number.
#[derive(Clone, Copy)]
struct Rest<'a>(Verb, &'a Outcome);

impl fmt::Display for Rest<'_> {
    ghost output = { λ rest. Some (rest_text rest.0 (replied rest.1.now)) };

    fn fmt<W: fmt::Write>(&self, f: &mut fmt::Formatter<W>) -> fmt::Result {
        match (self.0, self.1) {
            (Verb::Send, Outcome::Answered(answer)) => {
                let tries = Tries(*answer);
                write!(
                    f,
                    " sent {} doubtful {} {tries}",
                    answer.sent, answer.doubtful
                )
            }
            (Verb::Close, Outcome::Answered(_)) => Ok(()),
            (_, Outcome::Answered(answer)) => write!(f, " {}", Tries(*answer)),
            (_, Outcome::Fetched(answer, buffer)) => {
                let tries = Tries(*answer);
                let received = answer.received;
                let doubtful = answer.doubtful;
                write!(
                    f,
                    " received {received} doubtful {doubtful} {tries} buffer {}",
                    Hex(buffer)
                )
            }
            (_, Outcome::Shown(Ok(looked))) => {
                let standing = standing_word(looked.standing);
                write!(f, " standing {standing} toggle {}", u8::from(looked.toggle))
            }
            (_, Outcome::Shown(Err(_))) => write!(f, " standing none toggle 0"),
        }
    }
}

impl fmt::Display for Said {
    ghost output = { λ said. Some (said_text said) };

    fn fmt<W: fmt::Write>(&self, f: &mut fmt::Formatter<W>) -> fmt::Result {
        match self {
            Said::Nothing => Ok(()),
            Said::Added(part) => writeln!(f, "{part}: number 0"),
            Said::Refused(part) => {
                let number = SetupError::Refused.number().unwrap();
                writeln!(f, "{part}: number {number}")
            }
            Said::Put { register, value } => writeln!(f, "put {register}: {value}"),
            Said::Got { register, value } => writeln!(f, "get {register}: {value}"),
            Said::Exchanged(bytes) => writeln!(f, "frame: {}", Hex(bytes)),
            Said::Called {
                verb,
                pipe,
                outcome,
            } => {
                let number = outcome.number();
                writeln!(f, "{verb} {pipe}: number {number}{}", Rest(*verb, outcome))
            }
            Said::Shown(text) => write!(f, "{text}"),
        }
    }
}
