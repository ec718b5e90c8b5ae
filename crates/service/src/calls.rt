// A call to the host, and what came of it.
ghost use Rattle.std.specs.Prelude.{◌≡◌};
ghost use Rattle.service.specs.Asks.{replied, reply_number};

use host::{Answer, Looked, PipePlan, Refusal};

// One of the six calls, with its numbers, its message or its buffer.
#[derive(Debug, PartialEq, Eq, Drop)]
pub enum Call {
    Open { number: u8, plan: PipePlan },
    Send { number: u8, message: Vec<u8> },
    // the buffer is handed in, and back in the outcome
    Fetch { number: u8, buffer: Vec<u8> },
    Recover { number: u8 },
    Look { number: u8 },
    Close { number: u8 },
}

// What came of a call.
#[derive(Debug, PartialEq, Eq, Drop)]
pub enum Outcome {
    // of open, send, recover and close
    Answered(Answer),
    // of fetch, with the buffer afterwards
    Fetched(Answer, Vec<u8>),
    // of look
    Shown(Result<Looked, Refusal>),
}

impl Outcome {
    // 0 for success, else the refusal's number.
    pub fn number(&self) -> u8
        ensures { result ≡ reply_number (replied self.now) }
    {
        match self {
            Outcome::Answered(answer) | Outcome::Fetched(answer, _) => answer.number(),
            Outcome::Shown(looked) => looked.map_or_else(|refusal| refusal.number(), |_| 0),
        }
    }
}
