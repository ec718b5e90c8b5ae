// What becomes of one transaction on its way over the bus. Fates are how faults are put on a bench bus: each is one byte,
// its kind in the upper four bits and a result code in the lower four.
ghost use Rattle.std.specs.Prelude.{◌≡◌};
ghost use Rattle.port.specs.Fates.{fate_of};

use crate::results::NO_ANSWER;

#[derive(Clone, Copy, Debug, PartialEq, Eq)]
pub enum Fate {
    // it reaches the device, and the answer reaches the host
    Arrives,
    // it never reaches the device: the host sees this result code
    Lost(u8),
    // it reaches the device, and the handshake that ends it is not heard: on OUT and SETUP the host sees this result code
    Unheard(u8),
    // the device answers that it is busy
    Nak,
    // the device answers that the endpoint is halted
    Stall,
}

// A byte, read as a fate. What stands for none is lost with code 14.
impl From<u8> for Fate {
    ghost from_gives = { λ byte fate. fate ≡ fate_of byte };

    fn from(byte: u8) -> Fate {
        match byte {
            0x00 => Fate::Arrives,
            0x30 => Fate::Nak,
            0x40 => Fate::Stall,
            0x17..=0x1f => Fate::Lost(byte - 0x10),
            0x27..=0x2f => Fate::Unheard(byte - 0x20),
            _ => Fate::Lost(NO_ANSWER),
        }
    }
}
