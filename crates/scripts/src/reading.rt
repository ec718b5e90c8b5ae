// Reading a line of a script: words between single spaces.
ghost use Rattle.std.specs.Prelude.{◌≡◌, ◌<◌};
ghost use Rattle.scripts.specs.Commands.{ReadsLine, texts, written, Fits};
ghost use Rattle.scripts.specs.Words.{Reads, written_length, IsBlank};

use crate::commands::Command;
use crate::errors::LineError;
use crate::hexes::bytes;
use crate::numbers::{byte, short};
use crate::words::{bus, direction, halted};
use bench::EndpointPlan;
use host::PipePlan;
use service::Call;
use std::alloc::{AllocError, Global};
use std::str;

// the longest buffer that a fetch can ask for
const BUFFER_MOST: u16 = 4096;
// what stands in a buffer before a fetch
const BLANK: u8 = 0xee;

// The buffer of a fetch.
fn buffer(alloc: Global, word: &str) -> Result<Vec<u8>, LineError>
    ensures { Reads written_length IsBlank word.now result }
{
    let length = short(word)?;
    if length > BUFFER_MOST {
        return Err(LineError::NotUnderstood);
    }
    Ok(vec![in alloc; BLANK; usize::from(length)]?)
}

// The command that words write.
fn from_words(alloc: Global, words: &[&str]) -> Result<Command, LineError>
    ensures { Reads written Fits (texts words.now) result }
{
    match *words {
        ["new"] => Ok(Command::New),
        ["bus", name] => Ok(Command::Drive(bus(name)?)),
        ["cell", address, number, facing, toggle, life, capacity] => {
            Ok(Command::Endpoint(EndpointPlan {
                address: byte(address)?,
                number: byte(number)?,
                direction: direction(facing)?,
                toggle: byte(toggle)?,
                halted: halted(life)?,
                capacity: short(capacity)?,
            }))
        }
        ["wait", address, number, packet] => Ok(Command::Packet {
            address: byte(address)?,
            number: byte(number)?,
            bytes: bytes(alloc, packet)?,
        }),
        ["fates", more] => Ok(Command::Fates(bytes(alloc, more)?)),
        ["put", register, value] => Ok(Command::Put {
            register: byte(register)?,
            value: byte(value)?,
        }),
        ["get", register] => Ok(Command::Get {
            register: byte(register)?,
        }),
        ["frame", sent] => Ok(Command::Frame(bytes(alloc, sent)?)),
        ["show"] => Ok(Command::Show),
        ["open", number, address, endpoint, facing, size, limit] => {
            Ok(Command::Call(Call::Open {
                number: byte(number)?,
                plan: PipePlan {
                    address: byte(address)?,
                    endpoint: byte(endpoint)?,
                    direction: direction(facing)?,
                    size: byte(size)?,
                    limit: byte(limit)?,
                },
            }))
        }
        ["send", number, message] => Ok(Command::Call(Call::Send {
            number: byte(number)?,
            message: bytes(alloc, message)?,
        })),
        ["fetch", number, length] => Ok(Command::Call(Call::Fetch {
            number: byte(number)?,
            buffer: buffer(alloc, length)?,
        })),
        ["recover", number] => Ok(Command::Call(Call::Recover {
            number: byte(number)?,
        })),
        ["look", number] => Ok(Command::Call(Call::Look {
            number: byte(number)?,
        })),
        ["close", number] => Ok(Command::Call(Call::Close {
            number: byte(number)?,
        })),
        _ => Err(LineError::NotUnderstood),
    }
}

impl Command {
    // The command that a line says.
    pub fn read(alloc: Global, line: &[u8]) -> Result<Command, LineError>
        ensures { ReadsLine line.now result }
    {
        if let [] | [b'#', ..] = line {
            return Ok(Command::Nothing);
        }
        let Ok(text) = str::from_utf8(line) else {
            return Err(LineError::NotUnderstood);
        };
        let words: Vec<&str> = text.split(' ').collect(alloc)?;
        from_words(alloc, &words)
    }
}
