// The words of a line that name a choice.
ghost use Rattle.std.specs.Prelude.{◌≡◌};
ghost use Rattle.scripts.specs.Words.{Reads, Anything, direction_word, life_word, bus_word};

use crate::buses::Bus;
use crate::errors::LineError;
use frames::Duplex;
use port::Direction;

pub(crate) fn direction(word: &str) -> Result<Direction, LineError>
    ensures { Reads direction_word Anything word.now result }
{
    match word {
        "out" => Ok(Direction::Out),
        "in" => Ok(Direction::In),
        _ => Err(LineError::NotUnderstood),
    }
}

// Whether an endpoint is halted.
pub(crate) fn halted(word: &str) -> Result<bool, LineError>
    ensures { Reads life_word Anything word.now result }
{
    match word {
        "live" => Ok(false),
        "halted" => Ok(true),
        _ => Err(LineError::NotUnderstood),
    }
}

pub(crate) fn bus(word: &str) -> Result<Bus, LineError>
    ensures { Reads bus_word Anything word.now result }
{
    match word {
        "direct" => Ok(Bus::Direct),
        "framed-half" => Ok(Bus::Framed(Duplex::Half)),
        "framed-full" => Ok(Bus::Framed(Duplex::Full)),
        _ => Err(LineError::NotUnderstood),
    }
}
