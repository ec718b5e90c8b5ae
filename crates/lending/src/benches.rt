// The bench bus of the kiosk.
use bench::{BenchChip, EndpointPlan, SetupError};
use port::Direction;

pub const PRINTER: u8 = 5;

pub const PRINTER_OUT: u8 = 2;

pub const PAD: u8 = 9;

pub const PAD_IN: u8 = 1;

// The label, as the pad hands it over: a full packet, and a shorter one that ends it.
const LABEL_FRONT: &[u8; 8] = b"THE CITY";

const LABEL_END: &[u8; 6] = b" ATLAS";

// What becomes of a transaction: it arrives; it is lost on the way; it arrives, but its acknowledgement is lost.
const ARRIVES: u8 = 0x00;

const LOST: u8 = 0x1e;

const UNHEARD: u8 = 0x2e;

// What becomes of each transaction of a day.
pub const DAY: [u8; 25] = [
    // the pad's pipe is opened
    ARRIVES, ARRIVES,
    // the label: its first packet comes, comes again, and then the other
    UNHEARD, ARRIVES, ARRIVES,
    // the printer's pipe is opened
    ARRIVES, ARRIVES,
    // the slip: its second packet is taken, and goes again
    ARRIVES, UNHEARD, ARRIVES, ARRIVES, ARRIVES,
    // the copy: its second packet is taken unheard, and then lost twice
    ARRIVES, UNHEARD, LOST, LOST,
    // the printer's pipe is recovered
    ARRIVES, ARRIVES,
    // the copy in full
    ARRIVES, ARRIVES, ARRIVES, ARRIVES,
    // the pad is asked as often as the limit says
    ARRIVES, ARRIVES, ARRIVES,
];

// What becomes of the three transactions that open the printer's pipe and send one packet over it.
pub const QUIET: [u8; 3] = [ARRIVES, ARRIVES, ARRIVES];

const PRINTER_PLAN: EndpointPlan = EndpointPlan {
    address: PRINTER,
    number: PRINTER_OUT,
    direction: Direction::Out,
    toggle: 1,
    halted: false,
    capacity: 4096,
};

const PAD_PLAN: EndpointPlan = EndpointPlan {
    address: PAD,
    number: PAD_IN,
    direction: Direction::In,
    toggle: 1,
    halted: false,
    capacity: 0,
};

// Puts a slip printer and a tag pad on the bus, with the atlas on the pad.
fn equip(chip: &mut BenchChip, fates: &[u8]) -> Result<(), SetupError> {
    chip.add_endpoint(PRINTER_PLAN)?;
    chip.add_endpoint(PAD_PLAN)?;
    chip.add_packet(PAD, PAD_IN, LABEL_FRONT)?;
    chip.add_packet(PAD, PAD_IN, LABEL_END)?;
    chip.add_fates(fates)
}

// The bus of the kiosk, on which transactions meet these fates.
pub fn bench_bus(rt: &HostRuntime, fates: &[u8]) -> anyhow::Result<BenchChip> {
    let mut chip = BenchChip::new(rt.alloc())?;
    equip(&mut chip, fates)?;
    Ok(chip)
}
