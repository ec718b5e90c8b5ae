// The stages of the story.
use crate::benches::{PAD, PAD_IN, bench_bus};
use crate::days::Day;
use crate::journal::Tried;
use crate::papers::show_paper;
use crate::{days, telling};
use attempt::{Arrival, try_in};
use bench::BenchChip;
use frames::{Duplex, FramedPort, PortWire};
use host::Host;
use port::{Port, Toggle};

const FIRST_SLIP: &[u8; 54] = b"THE CITY ATLAS\nlent to reader 1187\nback by 8 December\n";

const SECOND_SLIP: &[u8; 48] = b"A MAP OF RIVERS\nfor reader 2048\nback by 15 Dec.\n";
// the bytes of both
const SLIPS: usize = FIRST_SLIP.len() + SECOND_SLIP.len();

// the most bytes of a label
const LABEL_MOST: usize = 16;

// Asks the pad for one packet, in one try.
fn read_label<P: Port>(port: &mut P, room: &mut [u8]) -> (u8, Arrival) {
    let ((code, _), arrival) = try_in(port, PAD, PAD_IN, Toggle::Data0, room);
    (code, arrival)
}

// The label, read before there is a host.
fn tell_label(rt: &HostRuntime, chip: &mut BenchChip) -> anyhow::Result<()> {
    let mut room = [0u8; LABEL_MOST];
    let fate = chip.next_fate();
    let (code, arrival) = read_label(chip, &mut room);
    let tried = Tried {
        what: "IN from the pad",
        fate,
        code,
    };
    println!(rt; "An atlas drops into the returns slot. The tag pad reads its label:")?;
    println!(rt; "{tried}")?;
    match arrival {
        Arrival::Read(length) if length <= LABEL_MOST => {
            let label = std::str::from_utf8(&room[..length])?;
            println!(rt; "  The label says: {label}")?;
        }
        Arrival::TooLong => println!(rt; "  The label is too long to be read.")?,
        _ => println!(rt; "  No label came.")?,
    }
    Ok(())
}

// A day over any port, which is handed back.
fn spend<P: Port>(port: P) -> (P, Day) {
    let mut host = Host::new(port);
    let day = days::live(&mut host, FIRST_SLIP, SECOND_SLIP);
    (host.into_port(), day)
}

// The whole story, with the host driving the chip itself.
pub fn over_the_chip(rt: &HostRuntime) -> anyhow::Result<Day> {
    let mut chip = bench_bus(rt)?;
    tell_label(rt, &mut chip)?;
    let (chip, day) = spend(chip);
    telling::tell(rt, day)?;
    println!(rt; "")?;
    show_paper(rt, &chip, SLIPS)?;
    Ok(day)
}

// A day over a framed port, after the label.
fn spend_framed(chip: BenchChip) -> (BenchChip, Day) {
    let mut room = [0u8; LABEL_MOST];
    let mut port = FramedPort::new(PortWire::new(chip, Duplex::Half));
    let _ = read_label(&mut port, &mut room);
    let (port, day) = spend(port);
    (port.into_wire().into_port(), day)
}

// The same story over a framed port, on a bus with the same faults.
pub fn over_frames(rt: &HostRuntime, before: Day) -> anyhow::Result<()> {
    let (chip, day) = spend_framed(bench_bus(rt)?);
    println!(rt;
        "The same day over a framed port, where each register access is a frame on a half duplex wire:"
    )?;
    telling::tell_again(rt, day, before)?;
    show_paper(rt, &chip, SLIPS)
}
