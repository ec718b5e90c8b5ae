// How a device endpoint is to be set up, and what can stand in the way.
ghost use Rattle.std.specs.Prelude.{◌≡◌, Some};
ghost use Rattle.devices.specs.Setups.{error_number, error_text};
ghost use Rattle.devices.specs.declared.plans.SetupError.TheVariants.{NoMemory};

use crate::spots::Spot;
use port::Direction;
use std::alloc::AllocError;
use std::error::Error;
use std::fmt;

// What an endpoint is to be like: nothing taken, and no packet waiting.
#[derive(Clone, Copy, Debug, PartialEq, Eq)]
pub struct EndpointPlan {
    // 1 to 127
    pub address: u8,
    // 1 to 15
    pub number: u8,
    pub direction: Direction,
    // 0 or 1; a number, so that a plan with another is refused by the call that it is for
    pub toggle: u8,
    pub halted: bool,
    // at most 4,096 bytes
    pub capacity: u16,
}

impl EndpointPlan {
    pub(crate) fn spot(self) -> Spot
        ensures { result ≡ record { address = self.address; number = self.number; direction = self.direction } }
    {
        Spot::new(self.address, self.number, self.direction)
    }
}

// Why a set-up call did nothing.
#[derive(Clone, Copy, Debug, PartialEq, Eq)]
pub enum SetupError {
    // a value out of range, a ninth or repeated endpoint, a seventeenth packet, a packet for no endpoint
    Refused,
    // want of memory
    NoMemory,
}

impl SetupError {
    // The number under which a refusal is known; want of memory has none.
    pub fn number(self) -> Option<u8>
        ensures { result ≡ error_number self }
    {
        match self {
            SetupError::Refused => Some(18),
            SetupError::NoMemory => None,
        }
    }
}

impl From<AllocError> for SetupError {
    ghost from_gives = { λ _ error. error ≡ NoMemory };

    fn from(_error: AllocError) -> SetupError {
        SetupError::NoMemory
    }
}

impl fmt::Display for SetupError {
    ghost output = { λ error. Some (error_text error) };

    fn fmt<W: fmt::Write>(&self, f: &mut fmt::Formatter<W>) -> fmt::Result {
        match self {
            SetupError::Refused => write!(f, "the bench refused a set-up"),
            SetupError::NoMemory => write!(f, "no memory for the bench"),
        }
    }
}

impl Error for SetupError {}
