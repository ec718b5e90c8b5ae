// The chip's registers that a host uses, by number, and the values that are put to them.

// receive buffer: each get takes one byte
pub const RCVFIFO: u8 = 1;
// send buffer: each put loads one byte
pub const SNDFIFO: u8 = 2;
// setup buffer: each put loads one byte
pub const SUDFIFO: u8 = 4;
// how many received bytes are left
pub const RCVBC: u8 = 6;
// how many bytes of the send buffer an OUT sends
pub const SNDBC: u8 = 7;
// the flags done, free and received
pub const HIRQ: u8 = 25;
// the device address of the next launch
pub const PERADDR: u8 = 28;
// sets the toggles
pub const HCTL: u8 = 29;
// launches a transaction
pub const HXFR: u8 = 30;
// the toggles and the result code of the last launch
pub const HRSL: u8 = 31;

// HIRQ: the last launch is done; put back, it clears that
pub const HXFRDN: u8 = 0x80;
// HIRQ: a packet was received; put back, it clears that and empties the receive buffer
pub const RCVDAV: u8 = 0x04;

// HCTL: the send toggle becomes DATA1
pub const SNDTOG1: u8 = 0x80;
// HCTL: the send toggle becomes DATA0
pub const SNDTOG0: u8 = 0x40;
// HCTL: the receive toggle becomes DATA1
pub const RCVTOG1: u8 = 0x20;
// HCTL: the receive toggle becomes DATA0
pub const RCVTOG0: u8 = 0x10;

// HXFR: launches SETUP
pub const LAUNCH_SETUP: u8 = 0x10;
// HXFR: launches OUT, with the endpoint's number added
pub const LAUNCH_OUT: u8 = 0x20;
// HXFR: launches HS-IN
pub const LAUNCH_HS_IN: u8 = 0x80;

// the largest packet, and the size of the send and receive buffers
pub const PACKET_MOST: usize = 64;
// the length of a setup, and the size of the setup buffer
pub const SETUP_LENGTH: usize = 8;
