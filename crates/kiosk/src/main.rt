// The kiosk on a bench chip: an atlas comes back, its label is read from the tag pad, and the slip printer prints two slips over a
// cable that loses acknowledgements; once more over a framed port; and the frames of one packet. Prints what happened, for a person.
#![tactic(auto)]

mod benches;
mod days;
mod journal;
mod listening;
mod papers;
mod stages;
mod telling;

use benches::PAD;
use days::PRINTER;

fn run(rt: &HostRuntime) -> anyhow::Result<()> {
    println!(rt;
        "A lending kiosk on a bench chip: printer at address {PRINTER}, tag pad at address {PAD}."
    )?;
    println!(rt; "")?;
    let day = stages::over_the_chip(rt)?;
    println!(rt; "")?;
    stages::over_frames(rt, day)?;
    println!(rt; "")?;
    listening::one_packet(rt)?;
    listening::layered(rt)
}

fn main(rt: HostRuntime) -> anyhow::Result<()> {
    run(&rt)
}
