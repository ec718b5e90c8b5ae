// Where an endpoint stands on the bus: the address of its device, its number there, and its direction.
ghost use Rattle.std.specs.Prelude.{◌≡◌};

use port::Direction;

#[derive(Clone, Copy, Debug, PartialEq, Eq)]
pub(crate) struct Spot {
    pub(crate) address: u8,
    pub(crate) number: u8,
    pub(crate) direction: Direction,
}

impl Spot {
    pub(crate) fn new(address: u8, number: u8, direction: Direction) -> Spot
        ensures { result ≡ record { address = address; number = number; direction = direction } }
    {
        Spot {
            address,
            number,
            direction,
        }
    }
}
