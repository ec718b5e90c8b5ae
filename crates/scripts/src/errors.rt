// Why a line of a script is not obeyed.
ghost use Rattle.std.specs.Prelude.{◌≡◌, Some};

use std::alloc::{AllocError, AllocFailed};
use std::error::Error;
use std::fmt;

#[derive(Clone, Copy, Debug, PartialEq, Eq)]
pub enum LineError {
    // it is no command, or none that can be obeyed where it stands
    NotUnderstood,
    // want of memory
    NoMemory,
}

impl From<AllocError> for LineError {
    ghost use Rattle.scripts.specs.declared.errors.LineError.TheVariants.{NoMemory};

    ghost from_gives = { λ _ e. e ≡ NoMemory };

    fn from(_error: AllocError) -> LineError {
        LineError::NoMemory
    }
}

impl<T: Drop> From<AllocFailed<T>> for LineError {
    ghost use Rattle.scripts.specs.declared.errors.LineError.TheVariants.{NoMemory};

    ghost from_gives = { λ _ e. e ≡ NoMemory };

    fn from(_error: AllocFailed<T>) -> LineError {
        LineError::NoMemory
    }
}

impl fmt::Display for LineError {
    ghost use Rattle.scripts.specs.Errors.{error_text};

    ghost output = { λ error. Some (error_text error) };

    fn fmt<W: fmt::Write>(&self, f: &mut fmt::Formatter<W>) -> fmt::Result {
        match self {
            LineError::NotUnderstood => write!(f, "not understood"),
            LineError::NoMemory => write!(f, "out of memory"),
        }
    }
}

impl Error for LineError {}
