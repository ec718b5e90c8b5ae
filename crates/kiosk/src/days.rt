// A day at the kiosk: the calls that it makes of the host, over any port.
use host::{Answer, Host, PipePlan};
use port::{Direction, Port};

pub const PRINTER: u8 = 5;

pub const PRINTER_OUT: u8 = 2;

// the printer's pipe
const PIPE: u8 = 0;

pub const PRINTER_PLAN: PipePlan = PipePlan {
    address: PRINTER,
    endpoint: PRINTER_OUT,
    direction: Direction::Out,
    size: 16,
    limit: 3,
};

// The answers, in the order of the calls.
#[derive(Clone, Copy, Debug, PartialEq, Eq)]
pub struct Day {
    pub opened: Answer,
    // the first slip
    pub first: Answer,
    // the second, over the bad cable
    pub second: Answer,
    // the same once more, before the pipe is recovered
    pub early: Answer,
    pub recovered: Answer,
    // the second slip from its first uncertain byte on
    pub rest: Answer,
}

// What of a slip is not known to be printed.
fn unsent(slip: &[u8], answer: Answer) -> &[u8] {
    &slip[answer.sent.min(slip.len())..]
}

// The whole day. The second slip goes wrong in the middle; it is tried again too early, then the pipe is recovered, and it goes
// again from its first uncertain byte on.
pub fn live<P: Port>(host: &mut Host<P>, first_slip: &[u8], second_slip: &[u8]) -> Day {
    let opened = host.open(PIPE, PRINTER_PLAN);
    let first = host.send(PIPE, first_slip);
    let second = host.send(PIPE, second_slip);
    let early = host.send(PIPE, second_slip);
    let recovered = host.recover(PIPE);
    let rest = host.send(PIPE, unsent(second_slip, second));
    Day {
        opened,
        first,
        second,
        early,
        recovered,
        rest,
    }
}
