// A day at the kiosk, over any port: two lists of calls, each served whole.
use crate::steps::{LENDING, READING, Step};
use bench::BenchChip;
use frames::{Duplex, FramedPort, PortWire, Wire};
use host::Host;
use port::{Direction, Port};
use service::{Call, Outcome, serve};
use std::alloc::{AllocError, Global};

// What came of the two lists, the label that the first one fetched, and what the printer took.
#[derive(Drop)]
pub struct Day {
    pub label: Vec<u8>,
    pub reading: Vec<Outcome>,
    pub lending: Vec<Outcome>,
    pub paper: Vec<u8>,
}

// The calls of some steps.
fn calls(alloc: Global, steps: &[Step], label: &[u8]) -> Result<Vec<Call>, AllocError> {
    let mut calls = Vec::new(alloc);
    for step in steps {
        calls.push(step.call(alloc, label)?)?;
    }
    Ok(calls)
}

// The bytes that the calls received.
fn received(alloc: Global, outcomes: &[Outcome]) -> Result<Vec<u8>, AllocError> {
    let mut bytes = Vec::new(alloc);
    for outcome in outcomes {
        if let Outcome::Fetched(answer, buffer) = outcome {
            bytes.extend_from_slice(&buffer[..answer.received.min(buffer.len())])?;
        }
    }
    Ok(bytes)
}

// What came of some steps.
fn take<P: Port>(
    alloc: Global,
    host: &mut Host<P>,
    steps: &[Step],
    label: &[u8],
) -> Result<Vec<Outcome>, AllocError> {
    serve(host, alloc, calls(alloc, steps, label)?)
}

// Both lists. The slips of the second begin with the label that the first has fetched. The paper is not looked at yet.
fn live<P: Port>(alloc: Global, host: &mut Host<P>) -> Result<Day, AllocError> {
    let reading = take(alloc, host, &READING, &[])?;
    let label = received(alloc, &reading)?;
    let lending = take(alloc, host, &LENDING, &label)?;
    Ok(Day {
        label,
        reading,
        lending,
        paper: Vec::new(alloc),
    })
}

// A day over a port, which is handed back.
fn spend<P: Port>(alloc: Global, port: P) -> (P, Result<Day, AllocError>) {
    let mut host = Host::new(port);
    let day = live(alloc, &mut host);
    (host.into_port(), day)
}

// A day over a framed port to a wire, which is handed back.
fn spend_framed<W: Wire>(alloc: Global, wire: W) -> (W, Result<Day, AllocError>) {
    let (port, day) = spend(alloc, FramedPort::new(wire));
    (port.into_wire(), day)
}

// The day, with what the printers on the bus have taken.
fn with_paper(chip: &BenchChip, day: Result<Day, AllocError>) -> Result<Day, AllocError> {
    let mut day = day?;
    for endpoint in chip.endpoints() {
        let state = endpoint.state();
        if state.direction == Direction::Out {
            day.paper.extend_from_slice(state.taken)?;
        }
    }
    Ok(day)
}

// A day with the host driving the chip itself.
pub fn over_the_chip(alloc: Global, chip: BenchChip) -> Result<Day, AllocError> {
    let (chip, day) = spend(alloc, chip);
    with_paper(&chip, day)
}

// A day over a framed port, on a half duplex wire to the chip.
pub fn over_frames(alloc: Global, chip: BenchChip) -> Result<Day, AllocError> {
    let (wire, day) = spend_framed(alloc, PortWire::new(chip, Duplex::Half));
    with_paper(wire.port(), day)
}
