// Receipts. A launch leaves one, and it is handed in by getting the launch's result: so no result is left unread, and none is
// read twice. A program that lets a receipt go without handing it in, or hands it in twice, is not proved.
ghost use Rattle.std.specs.Prelude.{◌≡◌, true, false};
ghost use Rattle.port.specs.Accesses.{after_put, got, after_get};

use port::Port;
use port::registers::{HRSL, HXFR};

// What a launch leaves behind. It is not Copy, and it can be let go only after it was handed in.
pub struct Receipt {
    handed_in: bool,
}

impl Drop for Receipt {
    fn drop(self)
        requires { self.handed_in ≡ true }
    {
        let Receipt { handed_in: _ } = self;
    }
}

impl Receipt {
    // Hands the receipt in, which is done once.
    fn hand_in(&mut self)
        requires { self.old.handed_in ≡ false }
        ensures { self.new.handed_in ≡ true }
    {
        self.handed_in = true;
    }
}

// Launches the transaction that the value stands for.
pub fn launch<P: Port>(port: &mut P, value: u8) -> Receipt
    ensures receipt { result.handed_in ≡ false }
    ensures after { P.meaning port.new ≡ after_put 30 value (P.meaning port.old) }
{
    port.put(HXFR, value);
    Receipt { handed_in: false }
}

// Hands in the receipt: what R31 says of the launch, its toggles and its result code.
pub fn result<P: Port>(port: &mut P, receipt: Receipt) -> u8
    ensures value { result ≡ got 31 (P.meaning port.old) }
    ensures after { P.meaning port.new ≡ after_get 31 (P.meaning port.old) }
{
    let status = port.get(HRSL);
    let mut receipt = receipt;
    if !receipt.handed_in {
        receipt.hand_in();
    }
    status
}
