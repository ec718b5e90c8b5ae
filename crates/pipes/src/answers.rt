// What a call answers.
ghost use Rattle.std.specs.Prelude.{◌≡◌};
ghost use Rattle.pipes.specs.Answers.{answer_number, declined};

use crate::pipes::Standing;
use crate::refusals::Refusal;
use port::Toggle;

// The answer of open, send, fetch, recover and close. What a call does not name is 0, and so is all but the refusal where it declined.
#[derive(Clone, Copy, Debug, Default, PartialEq, Eq)]
pub struct Answer {
    // why the call declined or stopped; none where it succeeded
    pub refusal: Option<Refusal>,
    // bytes of the packets that were sent and acknowledged
    pub sent: usize,
    // bytes of the packets that were received, which stand at the front of the buffer
    pub received: usize,
    // the length of the packet at which a send stopped, if the device may have taken it: some try of it got no answer
    pub doubtful: usize,
    // how many launches the call made
    pub tries: u32,
    // the result code of the last of them
    pub last: u8,
}

impl Answer {
    // The answer of a call that declined.
    pub fn declined(refusal: Refusal) -> Answer
        ensures { result ≡ declined refusal }
    {
        Answer {
            refusal: Some(refusal),
            ..Answer::default()
        }
    }

    // 0 for success, else the refusal's number: under it a reader knows an answer.
    pub fn number(self) -> u8
        ensures { result ≡ answer_number self }
    {
        self.refusal.map_or(0, |refusal| refusal.number())
    }
}

// What a look shows of a pipe.
#[derive(Clone, Copy, Debug, PartialEq, Eq)]
pub struct Looked {
    pub standing: Standing,
    pub toggle: Toggle,
}
