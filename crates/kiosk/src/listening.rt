// What goes over a wire, byte by byte.
use crate::benches::bench_bus;
use crate::days::PRINTER_PLAN;
use crate::journal::tell_sent;
use analyser::{get_flags, listen};
use frames::{Duplex, PortWire};

const NOTE: &[u8; 3] = b"OK\n";

// The frames of one packet, on a full duplex wire.
pub fn one_packet(rt: &HostRuntime) -> anyhow::Result<()> {
    let wire = PortWire::new(bench_bus(rt)?, Duplex::Full);
    let overheard = listen(rt.alloc(), wire, PRINTER_PLAN, NOTE);
    println!(rt;
        "The frames of one packet, \"OK\" and a line feed, on a full duplex wire. While a command byte goes out,"
    )?;
    println!(rt;
        "the flags of R25 come in: 80 the last launch is done, 08 the send buffer is free, 04 a packet was received."
    )?;
    for exchange in &overheard.frames {
        print!(rt; "{exchange}")?;
    }
    tell_sent(rt, overheard.answer)?;
    Ok(())
}

// A wire made of a framed port over another wire is a wire again: the flags, got through both.
pub fn layered(rt: &HostRuntime) -> anyhow::Result<()> {
    let wire = PortWire::new(bench_bus(rt)?, Duplex::Half);
    println!(rt; "{}", get_flags(wire))?;
    Ok(())
}
