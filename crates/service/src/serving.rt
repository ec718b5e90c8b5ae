// Serving: every call of a list is made, in order, refused ones included.
ghost use Rattle.std.specs.Prelude.{◌≡◌, ◌+◌, ◌-◌, ◌<◌, [], ◌∷◌, ◌++◌, map, is_ok, IfOk, Some, codes, vec_len, vec_capacity, MatchResult, nat_le};
ghost use Rattle.service.specs.Asks.{asked, replied};
ghost use Rattle.service.specs.Serving.{state, step, ServedBehind, Served};
ghost use Rattle.service.specs.Laws.{Promised, PromisedOnward};

use crate::calls::{Call, Outcome};
use host::Host;
use port::Port;
use std::alloc::{AllocError, Global};
use std::error::Error;
use std::fmt;

// The outcomes have no room for what comes of all calls.
#[derive(Clone, Copy, Debug, PartialEq, Eq)]
pub struct NoRoom;

impl fmt::Display for NoRoom {
    ghost output = { λ _. Some (codes "no room for what comes of all calls") };

    fn fmt<W: fmt::Write>(&self, f: &mut fmt::Formatter<W>) -> fmt::Result {
        write!(f, "no room for what comes of all calls")
    }
}

impl Error for NoRoom {}

// Makes one call.
fn make<P: Port>(host: &mut Host<P>, call: Call) -> Outcome
    ensures reply { replied result ≡ (step (state host.old.table.pipes (P.meaning host.old.port)) (asked call)).reply }
    ensures table { host.new.table.pipes ≡ (step (state host.old.table.pipes (P.meaning host.old.port)) (asked call)).state.places }
    ensures after { P.meaning host.new.port ≡ (step (state host.old.table.pipes (P.meaning host.old.port)) (asked call)).state.bus }
{
    match call {
        Call::Open { number, plan } => Outcome::Answered(host.open(number, plan)),
        Call::Send { number, message } => Outcome::Answered(host.send(number, &message)),
        Call::Fetch { number, mut buffer } => {
            let answer = host.fetch(number, &mut buffer);
            Outcome::Fetched(answer, buffer)
        }
        Call::Recover { number } => Outcome::Answered(host.recover(number)),
        Call::Look { number } => Outcome::Shown(host.look(number)),
        Call::Close { number } => Outcome::Answered(host.close(number)),
    }
}

// Makes one call, and keeps what came of it behind what came of the calls before.
fn serve_next<P: Port>(host: &mut Host<P>, call: Call, outcomes: &mut Vec<Outcome>)
    requires { vec_len outcomes.old < vec_capacity outcomes.old }
    ensures reply { map replied outcomes.new.items ≡ map replied outcomes.old.items ++ (step (state host.old.table.pipes (P.meaning host.old.port)) (asked call)).reply ∷ [] }
    ensures len { vec_len outcomes.new ≡ vec_len outcomes.old + 1 }
    ensures capacity { vec_capacity outcomes.new ≡ vec_capacity outcomes.old }
    ensures table { host.new.table.pipes ≡ (step (state host.old.table.pipes (P.meaning host.old.port)) (asked call)).state.places }
    ensures after { P.meaning host.new.port ≡ (step (state host.old.table.pipes (P.meaning host.old.port)) (asked call)).state.bus }
{
    let outcome = make(host, call);
    outcomes.push_reserved(outcome);
}

// Makes all calls, in order, and adds what came of each to the outcomes, if these have room for all of it; else no call is made and nothing
// is touched. What came of each call, and the host afterwards, are what the definitions give from the host as it was and the calls alone.
pub fn serve_into<P: Port>(
    host: &mut Host<P>,
    calls: Vec<Call>,
    outcomes: &mut Vec<Outcome>,
) -> Result<(), NoRoom>
    ensures room { is_ok result ≡ nat_le (vec_len calls) (vec_capacity outcomes.old - vec_len outcomes.old) }
    ensures served { MatchResult result (λ _. ServedBehind (map replied outcomes.old.items) (state host.old.table.pipes (P.meaning host.old.port)) (map asked calls.items) (map replied outcomes.new.items) (state host.new.table.pipes (P.meaning host.new.port))) (λ _. (host.new ≡ host.old) × (outcomes.new ≡ outcomes.old)) }
{
    if calls.len() > outcomes.capacity() - outcomes.len() {
        return Err(NoRoom);
    }
    for call in calls {
        serve_next(host, call, outcomes);
    }
    Ok(())
}

// Makes all calls, and gives back what came of each. Memory for that is reserved before the first call: where it is wanting, no call is
// made and nothing was touched. What came of each call, and the host afterwards, are what the definitions give from the host as it was
// and the calls alone; and if the host was unused and its port fresh, the slip law, the label law and the toggle law hold after each
// call. They hold as well, of all calls together, where such a host has served other lists before.
pub fn serve<P: Port>(
    host: &mut Host<P>,
    alloc: Global,
    calls: Vec<Call>,
) -> Result<Vec<Outcome>, AllocError>
    ensures served { MatchResult result (λ outcomes. Served (state host.old.table.pipes (P.meaning host.old.port)) (map asked calls.items) (map replied outcomes.items) (state host.new.table.pipes (P.meaning host.new.port))) (λ _. host.new ≡ host.old) }
    ensures promise { IfOk result (λ outcomes. Promised (state host.old.table.pipes (P.meaning host.old.port)) (map asked calls.items) (map replied outcomes.items)) }
    ensures onward { IfOk result (λ outcomes. PromisedOnward (state host.old.table.pipes (P.meaning host.old.port)) (map asked calls.items) (map replied outcomes.items)) }
{
    let mut outcomes = Vec::with_capacity(alloc, calls.len())?;
    // there is room: it was reserved
    let _ = serve_into(host, calls, &mut outcomes);
    Ok(outcomes)
}
