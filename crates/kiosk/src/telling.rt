// The day in words.
use crate::days::Day;
use crate::journal::{tell_cleared, tell_sent};
use host::Answer;
use std::io;

// The first slip.
fn tell_first(rt: &HostRuntime, day: Day) -> io::Result<()> {
    println!(rt; "The printer's pipe is opened, so that both sides start at DATA0:")?;
    tell_cleared(rt, day.opened)?;
    println!(rt;
        "The slip goes out in packets of 16 bytes. One acknowledgement is lost: that packet goes again, and is taken once."
    )?;
    tell_sent(rt, day.first)
}

// The second slip.
fn tell_second(rt: &HostRuntime, day: Day) -> io::Result<()> {
    println!(rt; "Somebody kicks the cable. A second slip:")?;
    tell_sent(rt, day.second)?;
    println!(rt;
        "  So {} bytes are printed for certain. The next {} may be printed or not: no answer was heard.",
        day.second.sent, day.second.doubtful,
    )?;
    println!(rt; "The host sends nothing more over that pipe until it is recovered:")?;
    tell_sent(rt, day.early)
}

// The second slip once more.
fn tell_rest(rt: &HostRuntime, day: Day) -> io::Result<()> {
    println!(rt; "The cable is put right, and the pipe is recovered:")?;
    tell_cleared(rt, day.recovered)?;
    println!(rt;
        "The slip again, from its first uncertain byte on. If the printer had those bytes, they are printed twice:"
    )?;
    tell_sent(rt, day.rest)
}

pub fn tell(rt: &HostRuntime, day: Day) -> io::Result<()> {
    tell_first(rt, day)?;
    tell_second(rt, day)?;
    tell_rest(rt, day)
}

// One call, beside the same call over the chip itself.
fn compare(rt: &HostRuntime, call: &str, answer: Answer, before: Answer) -> io::Result<()> {
    let same = if answer == before {
        "as before"
    } else {
        "NOT as before"
    };
    println!(rt;
        "  {call}: answer {}, {} sent, {} uncertain, tries {}; {same}",
        answer.number(),
        answer.sent,
        answer.doubtful,
        answer.tries,
    )
}

// A day beside another.
pub fn tell_again(rt: &HostRuntime, day: Day, before: Day) -> io::Result<()> {
    compare(rt, "open", day.opened, before.opened)?;
    compare(rt, "first slip", day.first, before.first)?;
    compare(rt, "second slip", day.second, before.second)?;
    compare(rt, "too early", day.early, before.early)?;
    compare(rt, "recover", day.recovered, before.recovered)?;
    compare(rt, "the rest", day.rest, before.rest)
}
