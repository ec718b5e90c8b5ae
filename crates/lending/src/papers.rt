// The printer's paper.
use crate::days::Day;
use service::Outcome;
use std::io;

// The bytes that were sent for certain, and those that are uncertain.
fn accounted(outcomes: &[Outcome]) -> (usize, usize) {
    let mut sent = 0usize;
    let mut doubtful = 0usize;
    for outcome in outcomes {
        if let Outcome::Answered(answer) = outcome {
            sent = sent.saturating_add(answer.sent);
            doubtful = doubtful.saturating_add(answer.doubtful);
        }
    }
    (sent, doubtful)
}

// How many bytes the printer has taken, beside what the answers say.
fn show_count(rt: &HostRuntime, bytes: usize, outcomes: &[Outcome]) -> io::Result<()> {
    let (sent, doubtful) = accounted(outcomes);
    let verdict = if bytes == sent.saturating_add(doubtful) {
        "the uncertain ones too"
    } else if bytes == sent {
        "none of the uncertain ones"
    } else {
        "which DOES NOT agree"
    };
    println!(rt;
        "\nBy the answers {sent} bytes were printed for certain, and {doubtful} more are uncertain.\nThe printer has taken {bytes}, {verdict}. Its paper:"
    )
}

fn show_lines(rt: &HostRuntime, paper: &str) -> io::Result<()> {
    for line in paper.lines() {
        println!(rt; "  | {line}")?;
    }
    Ok(())
}

// What the printer has taken, line by line, beside what the answers say of it.
pub fn show_paper(rt: &HostRuntime, day: &Day) -> anyhow::Result<()> {
    show_count(rt, day.paper.len(), &day.lending)?;
    Ok(show_lines(rt, std::str::from_utf8(&day.paper)?)?)
}
