// Running a script, line by line.
ghost use Rattle.std.specs.Prelude.{◌≡◌, ◌≢◌, ◌++◌, ◌==◌, IfOk, OnOk, string_bytes};
ghost use Rattle.scripts.specs.Running.{has, Answers, line_text, Tells};
ghost use Rattle.scripts.specs.Scenes.{scene_of, fresh_scene};

use crate::commands::Command;
use crate::errors::LineError;
use crate::machines::Machine;
use crate::saying::Said;
use service::Call;
use std::alloc::{AllocError, Global};

// Which commands are understood.
#[derive(Clone, Copy, Debug, PartialEq, Eq)]
pub enum Vocabulary {
    Whole,
    WithoutFetch,
}

impl Vocabulary {
    fn has(self, command: &Command) -> bool
        ensures { result ≡ has self command.now }
    {
        match (self, command) {
            (Vocabulary::WithoutFetch, Command::Call(Call::Fetch { .. })) => false,
            _ => true,
        }
    }
}

// Obeys a line.
fn answer(
    alloc: Global,
    machine: Machine,
    vocabulary: Vocabulary,
    line: &[u8],
) -> (Machine, Result<Said, LineError>)
    ensures { Answers vocabulary line.now (scene_of machine) result.1 (scene_of result.0) }
{
    match Command::read(alloc, line) {
        // the machine stays where it is: to hand it on costs more than such a line
        Ok(Command::Nothing) => (machine, Ok(Said::Nothing)),
        Ok(command) => {
            if vocabulary.has(&command) {
                machine.obey(alloc, command)
            } else {
                (machine, Err(LineError::NotUnderstood))
            }
        }
        Err(error) => (machine, Err(error)),
    }
}

// Adds what is printed of a line with this number. Want of memory ends the script.
fn tell(out: &mut String, number: usize, said: Result<Said, LineError>) -> Result<(), AllocError>
    ensures text { OnOk result (string_bytes out.new ≡ string_bytes out.old ++ line_text number said) }
    ensures goes_on { OnOk result (said ≢ Err LineError.NoMemory) }
{
    match said {
        Ok(said) => write!(out, "{said}"),
        Err(LineError::NotUnderstood) => {
            writeln!(out, "line {number}: {}", LineError::NotUnderstood)
        }
        Err(LineError::NoMemory) => Err(AllocError),
    }
}

// What a script prints, on a machine of its own. Its lines are counted from 1; the last need not end.
pub fn run(alloc: Global, script: &[u8], vocabulary: Vocabulary) -> Result<String, AllocError>
    ensures { IfOk result (λ out. Tells vocabulary script.now (string_bytes out)) }
{
    let mut machine = Machine::new(alloc)?;
    let mut out = String::new(alloc);
    // the lines are not collected: memory for them would grow with the script
    for (place, line) in script.split(|byte| *byte == b'\n').enumerate() {
        let (next, said) = answer(alloc, machine, vocabulary, line);
        machine = next;
        tell(&mut out, place + 1, said)?;
    }
    Ok(out)
}
