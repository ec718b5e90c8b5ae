// A day in words.
use crate::days::Day;
use crate::papers::show_paper;
use crate::replies::Reply;
use crate::steps::{LENDING, READING, Step};
use service::Outcome;
use std::io;

// What came of each call of a list.
fn tell_calls(rt: &HostRuntime, steps: &[Step], outcomes: &[Outcome]) -> io::Result<()> {
    for (step, outcome) in steps.iter().zip(outcomes) {
        rt.println(step.story())?;
        rt.println(Reply(outcome))?;
    }
    Ok(())
}

fn tell_label(rt: &HostRuntime, label: &str) -> io::Result<()> {
    println!(rt;
        "\nThe label says: {label}. The second list of calls lends the book out, with slips that begin with this label."
    )
}

// Both lists of calls, and what was printed.
pub fn tell(rt: &HostRuntime, day: &Day) -> anyhow::Result<()> {
    rt.println(
        "An atlas drops into the returns slot, onto the tag pad. The first list of calls reads its label.",
    )?;
    tell_calls(rt, &READING, &day.reading)?;
    tell_label(rt, std::str::from_utf8(&day.label)?)?;
    tell_calls(rt, &LENDING, &day.lending)?;
    show_paper(rt, day)
}

// One call, beside the same call on another day.
fn compare(rt: &HostRuntime, step: Step, outcome: &Outcome, before: &Outcome) -> io::Result<()> {
    let as_before = if outcome == before {
        "as before"
    } else {
        "NOT as before"
    };
    println!(rt; "  {step}: answer {}, {as_before}", outcome.number())
}

// The calls of a list, beside the same calls on another day.
fn compare_calls(
    rt: &HostRuntime,
    steps: &[Step],
    outcomes: &[Outcome],
    before: &[Outcome],
) -> io::Result<()> {
    for (step, (outcome, before)) in steps.iter().zip(outcomes.iter().zip(before)) {
        compare(rt, *step, outcome, before)?;
    }
    Ok(())
}

// A day beside another.
pub fn tell_again(rt: &HostRuntime, day: &Day, before: &Day) -> anyhow::Result<()> {
    rt.println(
        "\nThe same day over a framed port, where each register access is a frame on a half duplex wire:",
    )?;
    compare_calls(rt, &READING, &day.reading, &before.reading)?;
    compare_calls(rt, &LENDING, &day.lending, &before.lending)?;
    show_paper(rt, day)
}
