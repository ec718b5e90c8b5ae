// The transactions that the chip can be told to launch, and the values of R30 that stand for them.
ghost use Rattle.std.specs.Prelude.{◌≡◌, Some, codes};
ghost use Rattle.port.specs.Transactions.{legal};

use std::error::Error;
use std::fmt;

#[derive(Clone, Copy, Debug, PartialEq, Eq)]
pub enum Transaction {
    // the first stage of a control request: eight setup bytes to endpoint 0
    Setup,
    // a packet from the endpoint of this number
    In(u8),
    // a packet to the endpoint of this number
    Out(u8),
    // the last stage of a control request: an empty packet from endpoint 0 that says whether the device did what it was asked
    HsIn,
}

// A value of R30 that stands for no transaction.
#[derive(Clone, Copy, Debug, PartialEq, Eq)]
pub struct IllegalLaunch(pub u8);

// The transaction that a value of R30 stands for.
impl TryFrom<u8> for Transaction {
    type Error = IllegalLaunch;

    ghost try_from_gives = { λ value answer. answer ≡ legal value };

    fn try_from(value: u8) -> Result<Transaction, IllegalLaunch> {
        match value {
            0x10 => Ok(Transaction::Setup),
            0x80 => Ok(Transaction::HsIn),
            1..=15 => Ok(Transaction::In(value)),
            0x21..=0x2f => Ok(Transaction::Out(value - 0x20)),
            _ => Err(IllegalLaunch(value)),
        }
    }
}

impl fmt::Display for IllegalLaunch {
    ghost output = { λ _. Some (codes "a launch of no transaction") };

    fn fmt<W: fmt::Write>(&self, f: &mut fmt::Formatter<W>) -> fmt::Result {
        write!(f, "a launch of no transaction")
    }
}

impl Error for IllegalLaunch {}
