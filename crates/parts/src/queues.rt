// The source of a bench chip's fates: a queue of bytes, one for each legal launch to come.
ghost use Rattle.std.specs.Prelude.{◌≡◌, [], ◌++◌, length, MatchResult};
ghost use Rattle.port.specs.Bus.{next_fate, later_fates};
ghost use Rattle.parts.specs.Queues.{queue_bytes};

use crate::pushes::push_all;
use port::Fate;
use port::results::NO_ANSWER;
use std::alloc::{AllocError, Global};
use std::collections::VecDeque;

#[derive(Drop)]
pub struct FateQueue {
    bytes: VecDeque<u8>,
}

impl FateQueue {
    pub fn new(alloc: Global) -> FateQueue
        ensures { queue_bytes result ≡ [] }
    {
        FateQueue {
            bytes: VecDeque::new(alloc),
        }
    }

    pub fn len(&self) -> usize
        ensures { result ≡ length (queue_bytes self.now) }
    {
        self.bytes.len()
    }

    // The fate that comes next.
    pub fn peek(&self) -> Fate
        ensures { result ≡ next_fate (queue_bytes self.now) }
    {
        self.bytes
            .front()
            .map_or(Fate::Lost(NO_ANSWER), |byte| Fate::from(*byte))
    }

    // The next fate; when there are none, lost with code 14.
    pub fn take(&mut self) -> Fate
        ensures value { result ≡ next_fate (queue_bytes self.old) }
        ensures after { queue_bytes self.new ≡ later_fates (queue_bytes self.old) }
    {
        self.bytes
            .pop_front()
            .map_or(Fate::Lost(NO_ANSWER), Fate::from)
    }

    // More fates, after those that are there; all of them or, for want of memory, none.
    pub fn add(&mut self, bytes: &[u8]) -> Result<(), AllocError>
        ensures { MatchResult result (λ _. queue_bytes self.new ≡ queue_bytes self.old ++ bytes.now) (λ _. queue_bytes self.new ≡ queue_bytes self.old) }
    {
        self.bytes.reserve(bytes.len())?;
        push_all(&mut self.bytes, bytes);
        Ok(())
    }
}
