// A bench chip that is being set up, and how it is driven: what there is before the first call.
ghost use Rattle.std.specs.Prelude.{◌≡◌, IfOk};
ghost use Rattle.scripts.specs.Buses.{driven_bus};
ghost use Rattle.scripts.specs.Scenes.{bench_scene, fresh_scene, set_up_said, Exchanges, Prepares};
ghost use Rattle.bench.specs.Chips.{bus_of};

use crate::buses::{Bus, Driven};
use crate::commands::Command;
use crate::errors::LineError;
use crate::saying::{Part, Said};
use bench::{BenchChip, SetupError};
use frames::{PortWire, Wire};
use port::Port;
use std::alloc::{AllocError, Global};

#[derive(Drop)]
pub(crate) struct Bench {
    pub(crate) chip: BenchChip,
    pub(crate) bus: Bus,
}

// How a set-up call ended.
fn set_up(part: Part, done: Result<(), SetupError>) -> Result<Said, LineError>
    ensures { result ≡ set_up_said part done }
{
    match done {
        Ok(()) => Ok(Said::Added(part)),
        Err(SetupError::Refused) => Ok(Said::Refused(part)),
        Err(SetupError::NoMemory) => Err(LineError::NoMemory),
    }
}

impl Bench {
    // A fresh bench chip, driven directly.
    pub(crate) fn new(alloc: Global) -> Result<Bench, AllocError>
        ensures { IfOk result (λ b. bench_scene b ≡ fresh_scene) }
    {
        let chip = BenchChip::new(alloc)?;
        Ok(Bench {
            chip,
            bus: Bus::Direct,
        })
    }

    // The chip as it is driven.
    pub(crate) fn driven(self) -> Driven
        ensures { driven_bus result ≡ bus_of self.chip }
    {
        let Bench { chip, bus } = self;
        Driven::new(chip, bus)
    }

    // One exchange of bytes on the wire.
    fn exchange(self, bytes: Vec<u8>) -> (Bench, Result<Said, LineError>)
        ensures { Exchanges self.bus bytes.items (bus_of self.chip) result.1 (bench_scene result.0) }
    {
        let Bench { chip, bus } = self;
        let Bus::Framed(duplex) = bus else {
            return (Bench { chip, bus }, Err(LineError::NotUnderstood));
        };
        let mut bytes = bytes;
        let mut wire = PortWire::new(chip, duplex);
        wire.exchange(&mut bytes);
        let chip = wire.into_port();
        (Bench { chip, bus }, Ok(Said::Exchanged(bytes)))
    }

    // Obeys a line that sets up the bus or drives the chip; any other is not understood here.
    pub(crate) fn obey(self, command: Command) -> (Bench, Result<Said, LineError>)
        ensures { Prepares command self.bus (bus_of self.chip) result.1 (bench_scene result.0) }
    {
        let mut bench = self;
        match command {
            Command::Drive(bus) => {
                bench.bus = bus;
                (bench, Ok(Said::Nothing))
            }
            Command::Endpoint(plan) => {
                let said = set_up(Part::Endpoint, bench.chip.add_endpoint(plan));
                (bench, said)
            }
            Command::Packet {
                address,
                number,
                bytes,
            } => {
                let said = set_up(Part::Packet, bench.chip.add_packet(address, number, &bytes));
                (bench, said)
            }
            Command::Fates(bytes) => {
                let said = set_up(Part::Fates, bench.chip.add_fates(&bytes));
                (bench, said)
            }
            Command::Put { register, value } => {
                let bus = bench.bus;
                let mut port = bench.driven();
                port.put(register, value);
                let chip = port.into_chip();
                (Bench { chip, bus }, Ok(Said::Put { register, value }))
            }
            Command::Get { register } => {
                let bus = bench.bus;
                let mut port = bench.driven();
                let value = port.get(register);
                let chip = port.into_chip();
                (Bench { chip, bus }, Ok(Said::Got { register, value }))
            }
            Command::Frame(bytes) => bench.exchange(bytes),
            _ => (bench, Err(LineError::NotUnderstood)),
        }
    }
}
