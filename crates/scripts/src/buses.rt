// What the host drives, and the chip as it is driven.
ghost use Rattle.std.specs.Prelude.{◌≡◌};
ghost use Rattle.scripts.specs.Buses.{driven_chip, driven_by, driven_bus};

use bench::BenchChip;
use frames::{Duplex, FramedPort, PortWire};
use port::Port;

#[derive(Clone, Copy, Debug, PartialEq, Eq)]
pub enum Bus {
    // the bench chip itself
    Direct,
    // a framed port over a wire to it
    Framed(Duplex),
}

// The chip itself, or a port that reaches it by frames.
pub(crate) enum Driven {
    Direct(BenchChip),
    Framed(FramedPort<PortWire<BenchChip>>),
}

impl Driven {
    pub(crate) fn new(chip: BenchChip, bus: Bus) -> Driven
        ensures chip { driven_chip result ≡ chip }
        ensures bus { driven_by result ≡ bus }
    {
        match bus {
            Bus::Direct => Driven::Direct(chip),
            Bus::Framed(duplex) => Driven::Framed(FramedPort::new(PortWire::new(chip, duplex))),
        }
    }

    // The chip, to look at.
    pub(crate) fn chip(&self) -> &BenchChip
        ensures { result.now ≡ driven_chip self.now }
    {
        match self {
            Driven::Direct(chip) => chip,
            Driven::Framed(port) => port.wire().port(),
        }
    }

    // The chip, handed back.
    pub(crate) fn into_chip(self) -> BenchChip
        ensures { result ≡ driven_chip self }
    {
        match self {
            Driven::Direct(chip) => chip,
            Driven::Framed(port) => port.into_wire().into_port(),
        }
    }
}

impl Port for Driven {
    ghost meaning = { driven_bus };

    fn put(&mut self, register: u8, value: u8) {
        match self {
            Driven::Direct(chip) => chip.put(register, value),
            Driven::Framed(port) => port.put(register, value),
        }
    }

    fn get(&mut self, register: u8) -> u8 {
        match self {
            Driven::Direct(chip) => chip.get(register),
            Driven::Framed(port) => port.get(register),
        }
    }

    fn put_many(&mut self, register: u8, bytes: &[u8]) {
        match self {
            Driven::Direct(chip) => chip.put_many(register, bytes),
            Driven::Framed(port) => port.put_many(register, bytes),
        }
    }

    fn get_many(&mut self, register: u8, into: &mut [u8]) {
        match self {
            Driven::Direct(chip) => chip.get_many(register, into),
            Driven::Framed(port) => port.get_many(register, into),
        }
    }
}
