// What a script works on: a bench chip that is being set up, and from the first call on a host over it.
ghost use Rattle.std.specs.Prelude.{◌≡◌, IfOk};
ghost use Rattle.bench.specs.Chips.{bus_of};
ghost use Rattle.service.specs.Serving.{state};
ghost use Rattle.scripts.specs.Buses.{driven_bus};
ghost use Rattle.scripts.specs.Scenes.{scene_of, stage_scene, fresh_scene, bus_in, state_in, serving, Serves, Shows, SetsUp, Obeys};

use crate::benches::Bench;
use crate::buses::{Bus, Driven};
use crate::commands::Command;
use crate::errors::LineError;
use crate::saying::{Said, Verb, pipe_of};
use crate::showing::Shown;
use bench::BenchChip;
use host::Host;
use port::Port;
use service::{Call, serve};
use std::alloc::{AllocError, Global};

#[derive(Drop)]
pub struct Machine {
    stage: Stage,
}

enum Stage {
    SettingUp(Bench),
    Serving(Host<Driven>),
}

impl Drop for Stage {
    fn drop(self) {
        match self {
            Stage::SettingUp(_) => {}
            Stage::Serving(host) => {
                let _ = host.into_port().into_chip();
            }
        }
    }
}

// Serves one call.
fn serve_one<P: Port>(alloc: Global, host: &mut Host<P>, call: Call) -> Result<Said, LineError>
    ensures { Serves call (state host.old.table.pipes (P.meaning host.old.port)) result (serving (state host.new.table.pipes (P.meaning host.new.port))) }
{
    let verb = Verb::of(&call);
    let pipe = pipe_of(&call);
    let calls = vec![in alloc; call]?;
    let mut outcomes = serve(host, alloc, calls)?;
    let outcome = outcomes.pop().unwrap();
    Ok(Said::Called {
        verb,
        pipe,
        outcome,
    })
}

impl Stage {
    // The chip at the end of the bus.
    fn chip(&self) -> &BenchChip
        ensures { bus_of result.now ≡ bus_in (stage_scene self.now) }
    {
        match self {
            Stage::SettingUp(bench) => &bench.chip,
            Stage::Serving(host) => host.port().chip(),
        }
    }

    // The host; the first call makes it.
    fn into_host(self) -> Host<Driven>
        ensures { state result.table.pipes (driven_bus result.port) ≡ state_in (stage_scene self) }
    {
        match self {
            Stage::SettingUp(bench) => Host::new(bench.driven()),
            Stage::Serving(host) => host,
        }
    }

    // What the host drives; after the first call it stays.
    fn drive(&mut self, bus: Bus) -> Result<Said, LineError>
        ensures { SetsUp (Command.Drive bus) (stage_scene self.old) result (stage_scene self.new) }
    {
        match self {
            Stage::SettingUp(bench) => {
                bench.bus = bus;
                Ok(Said::Nothing)
            }
            Stage::Serving(_) => Err(LineError::NotUnderstood),
        }
    }

    // A line that sets up the bus or drives the chip; after the first call none is understood.
    fn set_up(self, command: Command) -> (Stage, Result<Said, LineError>)
        ensures { SetsUp command (stage_scene self) result.1 (stage_scene result.0) }
    {
        match self {
            Stage::SettingUp(bench) => {
                let (bench, said) = bench.obey(command);
                (Stage::SettingUp(bench), said)
            }
            Stage::Serving(host) => (Stage::Serving(host), Err(LineError::NotUnderstood)),
        }
    }
}

impl Machine {
    // A fresh bench chip, driven directly.
    pub fn new(alloc: Global) -> Result<Machine, AllocError>
        ensures { IfOk result (λ m. scene_of m ≡ fresh_scene) }
    {
        let bench = Bench::new(alloc)?;
        Ok(Machine {
            stage: Stage::SettingUp(bench),
        })
    }

    // The endpoints, and how many fates are left.
    fn show(&self, alloc: Global) -> Result<Said, LineError>
        ensures { Shows (scene_of self.now) result (scene_of self.now) }
    {
        let text = Shown(self.stage.chip()).to_string(alloc)?;
        Ok(Said::Shown(text))
    }

    // Obeys a command: the machine afterwards, and what is said. It stands where it is called, since the machine is large to hand on.
    #[inline(always)]
    pub fn obey(self, alloc: Global, command: Command) -> (Machine, Result<Said, LineError>)
        ensures { Obeys command (scene_of self) result.1 (scene_of result.0) }
    {
        match command {
            Command::Nothing => (self, Ok(Said::Nothing)),
            Command::New => match Machine::new(alloc) {
                Ok(fresh) => (fresh, Ok(Said::Nothing)),
                Err(error) => (self, Err(LineError::from(error))),
            },
            Command::Call(call) => {
                let mut host = self.stage.into_host();
                let said = serve_one(alloc, &mut host, call);
                let stage = Stage::Serving(host);
                (Machine { stage }, said)
            }
            Command::Show => {
                let said = self.show(alloc);
                (self, said)
            }
            Command::Drive(bus) => {
                let mut machine = self;
                let said = machine.stage.drive(bus);
                (machine, said)
            }
            command => {
                let (stage, said) = self.stage.set_up(command);
                (Machine { stage }, said)
            }
        }
    }
}
