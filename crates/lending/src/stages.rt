// The stages of the story.
use crate::benches::{DAY, bench_bus};
use crate::days;
use crate::days::Day;
use crate::telling::{tell, tell_again};

// The whole story, with the host driving the chip itself.
pub fn over_the_chip(rt: &HostRuntime) -> anyhow::Result<Day> {
    let day = days::over_the_chip(rt.alloc(), bench_bus(rt, &DAY)?)?;
    tell(rt, &day)?;
    Ok(day)
}

// The same story over a framed port, on a bus with the same faults.
pub fn over_frames(rt: &HostRuntime, before: &Day) -> anyhow::Result<()> {
    let day = days::over_frames(rt.alloc(), bench_bus(rt, &DAY)?)?;
    tell_again(rt, &day, before)
}
