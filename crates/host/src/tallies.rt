// How the tries of one call went.
ghost use Rattle.std.specs.Prelude.{◌≡◌, ◌+◌, ◌^◌, ◌<◌};
ghost use Rattle.pipes.specs.Answers.{answered};
ghost use Rattle.pipes.specs.Counting.{verdict, succeeded};
ghost use Rattle.host.specs.Tallies.{no_tries, tallied};

use pipes::{Answer, Counts, Refusal};

#[derive(Clone, Copy)]
pub(crate) struct Tally {
    // the counts of the present packet or stage
    pub(crate) counts: Counts,
    pub(crate) tries: u32,
    // the result code of the last try
    pub(crate) last: u8,
    // why the call stopped, if it did
    pub(crate) stop: Option<Refusal>,
}

impl Tally {
    pub(crate) fn new(limit: u8) -> Tally
        ensures { result ≡ no_tries limit }
    {
        Tally {
            counts: Counts::new(limit),
            tries: 0,
            last: 0,
            stop: None,
        }
    }

    // Notes the result of one try, and answers whether it succeeded: then counting starts anew for the next packet or stage. That the tries
    // do not overflow is asked for, here and above: only the loop, by its budget, knows how many there can be.
    pub(crate) fn note(&mut self, limit: u8, code: u8) -> bool
        requires { self.old.tries + 1 < 2 ^ 32 }
        ensures success { result ≡ succeeded (verdict code self.old.counts) }
        ensures tally { self.new ≡ tallied limit self.old code }
    {
        let verdict = self.counts.judge(code);
        if verdict.succeeded() {
            self.counts = Counts::new(limit);
        }
        self.tries += 1;
        self.last = code;
        self.stop = verdict.refusal();
        verdict.succeeded()
    }

    // What is said of the tries.
    pub(crate) fn answer(self) -> Answer
        ensures { result ≡ answered self.stop 0 0 self.tries self.last }
    {
        Answer {
            refusal: self.stop,
            tries: self.tries,
            last: self.last,
            ..Answer::default()
        }
    }
}
