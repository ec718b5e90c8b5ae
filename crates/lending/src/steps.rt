// The steps of a day at the kiosk: each is one call to the host.
use crate::benches::{PAD, PAD_IN, PRINTER, PRINTER_OUT};
use host::PipePlan;
use port::Direction;
use service::Call;
use std::alloc::{AllocError, Global};
use std::fmt;

const PRINTER_PIPE: u8 = 0;

const PAD_PIPE: u8 = 1;

// How many NAKs of one packet stop a call.
const LIMIT: u8 = 3;

pub const PRINTER_PLAN: PipePlan = PipePlan {
    address: PRINTER,
    endpoint: PRINTER_OUT,
    direction: Direction::Out,
    size: 16,
    limit: LIMIT,
};

const PAD_PLAN: PipePlan = PipePlan {
    address: PAD,
    endpoint: PAD_IN,
    direction: Direction::In,
    size: 8,
    limit: LIMIT,
};

// The most bytes of a label: two packets.
const LABEL_MOST: usize = 16;

// What a slip says below the label.
const SLIP: &[u8; 40] = b"\nlent to reader 1187\nback by 8 December\n";

const COPY: &[u8; 38] = b"\nthe clerk's copy\nlent to reader 1187\n";

#[derive(Clone, Copy, Debug, PartialEq, Eq)]
pub enum Step {
    OpenPad,
    FetchLabel,
    LookPad,
    OpenPrinter,
    PrintSlip,
    // over the bad cable
    PrintCopy,
    // before the pipe is recovered
    PrintTooEarly,
    LookPrinter,
    Recover,
    PrintAgain,
    FetchAgain,
    ClosePad,
    ClosePrinter,
}

// The label is read.
pub const READING: [Step; 3] = [Step::OpenPad, Step::FetchLabel, Step::LookPad];

// The book is lent, with slips that begin with the label.
pub const LENDING: [Step; 10] = [
    Step::OpenPrinter,
    Step::PrintSlip,
    Step::PrintCopy,
    Step::PrintTooEarly,
    Step::LookPrinter,
    Step::Recover,
    Step::PrintAgain,
    Step::FetchAgain,
    Step::ClosePad,
    Step::ClosePrinter,
];

// A call that prints the label, and some text below it.
fn print(alloc: Global, label: &[u8], below: &[u8]) -> Result<Call, AllocError> {
    let mut message = label.to_vec(alloc)?;
    message.extend_from_slice(below)?;
    Ok(Call::Send {
        number: PRINTER_PIPE,
        message,
    })
}

impl Step {
    // Its call. What is printed begins with the label.
    pub fn call(self, alloc: Global, label: &[u8]) -> Result<Call, AllocError> {
        match self {
            Step::OpenPad => Ok(Call::Open {
                number: PAD_PIPE,
                plan: PAD_PLAN,
            }),
            Step::OpenPrinter => Ok(Call::Open {
                number: PRINTER_PIPE,
                plan: PRINTER_PLAN,
            }),
            Step::FetchLabel | Step::FetchAgain => Ok(Call::Fetch {
                number: PAD_PIPE,
                buffer: vec![in alloc; 0; LABEL_MOST]?,
            }),
            Step::PrintSlip => print(alloc, label, SLIP),
            Step::PrintCopy | Step::PrintTooEarly | Step::PrintAgain => print(alloc, label, COPY),
            Step::LookPad => Ok(Call::Look { number: PAD_PIPE }),
            Step::LookPrinter => Ok(Call::Look {
                number: PRINTER_PIPE,
            }),
            Step::Recover => Ok(Call::Recover {
                number: PRINTER_PIPE,
            }),
            Step::ClosePad => Ok(Call::Close { number: PAD_PIPE }),
            Step::ClosePrinter => Ok(Call::Close {
                number: PRINTER_PIPE,
            }),
        }
    }

    // What happens in it.
    pub fn story(self) -> &'static str {
        match self {
            Step::OpenPad => "The pad's pipe is opened, so that host and pad both start at DATA0.",
            Step::FetchLabel =>
                "The label comes in two packets. The pad does not hear that the first was received, and sends it again. By its toggle\n(result 6) the host knows that it has this packet, and drops it: over the cable it came twice, handed over it was once.",
            Step::LookPad => "The pad's pipe is looked at: host and pad still agree.",
            Step::OpenPrinter => "The printer's pipe is opened.",
            Step::PrintSlip =>
                "The reader's slip goes out in packets of 16 bytes. One acknowledgement is lost: that packet goes again, and is taken once.",
            Step::PrintCopy =>
                "Somebody kicks the cable while the clerk's copy is printed. Three tries of its second packet get no answer.",
            Step::PrintTooEarly =>
                "The copy once more, too early: over this pipe the host sends nothing until it is recovered. Nothing was touched.",
            Step::LookPrinter =>
                "The uncertain bytes are printed or not: from here nobody can tell, so the pipe is doubtful.",
            Step::Recover => "The cable is put right, and the pipe is recovered.",
            Step::PrintAgain =>
                "The copy is printed again from its beginning. The bytes that were sent are then printed twice, the uncertain ones\nonce or twice, and never anything else.",
            Step::FetchAgain =>
                "The pad is asked once more, and has nothing: the packet that came twice made no second book.",
            Step::ClosePad => "The pad's pipe is closed.",
            Step::ClosePrinter => "The printer's pipe is closed.",
        }
    }
}

// What it is, in a few words.
impl fmt::Display for Step {
    fn fmt<W: fmt::Write>(&self, f: &mut fmt::Formatter<W>) -> fmt::Result {
        f.write_str(match self {
            Step::OpenPad => "open the pad's pipe",
            Step::FetchLabel => "fetch the label",
            Step::LookPad => "look at the pad's pipe",
            Step::OpenPrinter => "open the printer's pipe",
            Step::PrintSlip => "print the slip",
            Step::PrintCopy => "print the copy",
            Step::PrintTooEarly => "print it again too early",
            Step::LookPrinter => "look at the printer's pipe",
            Step::Recover => "recover the printer's pipe",
            Step::PrintAgain => "print the copy in full",
            Step::FetchAgain => "fetch once more",
            Step::ClosePad => "close the pad's pipe",
            Step::ClosePrinter => "close the printer's pipe",
        })
    }
}
