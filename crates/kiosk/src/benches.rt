// The bench bus of the kiosk.
use crate::days::{PRINTER, PRINTER_OUT};
use bench::{BenchChip, EndpointPlan};
use port::Direction;

pub const PAD: u8 = 9;

pub const PAD_IN: u8 = 1;

const LABEL: &[u8; 14] = b"THE CITY ATLAS";

// What becomes of each transaction. The label comes in one, and the printer's pipe is opened in two. Of the first slip's packets the
// second is taken but its acknowledgement is lost, so that it goes again. Of the second slip's packets the second is taken
// unheard, and then lost twice. The pipe is recovered in two, and the rest of that slip goes in two.
const FATES: [u8; 16] = [
    0x00, 0x00, 0x00, 0x00, 0x2e, 0x00, 0x00, 0x00, 0x00, 0x2e, 0x1e, 0x1e, 0x00, 0x00, 0x00, 0x00,
];

const PRINTER_PLAN: EndpointPlan = EndpointPlan {
    address: PRINTER,
    number: PRINTER_OUT,
    direction: Direction::Out,
    toggle: 1,
    halted: false,
    capacity: 4096,
};

const PAD_PLAN: EndpointPlan = EndpointPlan {
    address: PAD,
    number: PAD_IN,
    direction: Direction::In,
    toggle: 0,
    halted: false,
    capacity: 0,
};

// A bus with a slip printer and a tag pad on which the atlas lies.
pub fn bench_bus(rt: &HostRuntime) -> anyhow::Result<BenchChip> {
    let mut chip = BenchChip::new(rt.alloc())?;
    chip.add_endpoint(PRINTER_PLAN)?;
    chip.add_endpoint(PAD_PLAN)?;
    chip.add_packet(PAD, PAD_IN, LABEL)?;
    chip.add_fates(&FATES)?;
    Ok(chip)
}
