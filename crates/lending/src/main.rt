// The kiosk on a bench chip: an atlas comes back, its label is read from the tag pad, and it is lent again, over a cable that loses
// acknowledgements; the same over a framed port; and the frames of one packet. Prints what happened, for a person.
#![tactic(auto)]

mod benches;
mod days;
mod listening;
mod papers;
mod replies;
mod stages;
mod steps;
mod telling;

use benches::{PAD, PRINTER};

fn run(rt: &HostRuntime) -> anyhow::Result<()> {
    println!(rt;
        "A lending kiosk on a bench chip: printer at address {PRINTER}, tag pad at address {PAD}.\n"
    )?;
    let day = stages::over_the_chip(rt)?;
    stages::over_frames(rt, &day)?;
    listening::one_packet(rt)?;
    listening::layered(rt)
}

fn main(rt: HostRuntime) -> anyhow::Result<()> {
    run(&rt)
}
