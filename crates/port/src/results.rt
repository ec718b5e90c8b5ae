// The result codes of a launch that have a name here. R31 shows a code in its low four bits; every value of them can come, so
// a code is a plain number.

// the transaction was done
pub const SUCCESS: u8 = 0;
// the value put to R30 launches nothing, or a received packet held the launch up
pub const BAD_REQUEST: u8 = 2;
// the device is busy
pub const NAK: u8 = 4;
// the endpoint is halted, or the device can't do what it was asked
pub const STALL: u8 = 5;
// the packet carried the toggle that was not expected
pub const WRONG_TOGGLE: u8 = 6;
// nobody answered
pub const NO_ANSWER: u8 = 14;
