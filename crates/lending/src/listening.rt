// The frames of one packet, as they go over a wire.
use crate::benches::{QUIET, bench_bus};
use crate::replies::Reply;
use crate::steps::PRINTER_PLAN;
use analyser::{Overheard, get_flags, listen};
use frames::{Duplex, PortWire};
use service::Outcome;
use std::io;

const NOTE: &[u8; 3] = b"OK\n";

fn tell(rt: &HostRuntime, overheard: &Overheard) -> io::Result<()> {
    rt.println(
        "\nThe frames of one packet, \"OK\" and a line feed, on a full duplex wire. While a command byte goes out,\nthe flags of R25 come in: 80 the last launch is done, 08 the send buffer is free, 04 a packet was received.",
    )?;
    for exchange in &overheard.frames {
        print!(rt; "{exchange}")?;
    }
    rt.println(Reply(&Outcome::Answered(overheard.answer)))
}

// The frames of one packet, on a full duplex wire.
pub fn one_packet(rt: &HostRuntime) -> anyhow::Result<()> {
    let wire = PortWire::new(bench_bus(rt, &QUIET)?, Duplex::Full);
    Ok(tell(rt, &listen(rt.alloc(), wire, PRINTER_PLAN, NOTE))?)
}

// A wire made of a framed port over another wire is a wire again: the flags, got through both.
pub fn layered(rt: &HostRuntime) -> anyhow::Result<()> {
    let wire = PortWire::new(bench_bus(rt, &[])?, Duplex::Half);
    println!(rt; "{}", get_flags(wire))?;
    Ok(())
}
