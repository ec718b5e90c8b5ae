ghost use Rattle.std.specs.Prelude.{◌≡◌, ◌%◌, ◌<◌, length, IfOk, slice_index};
ghost use Rattle.port.specs.Chip.{fresh_chip, load_sending, load_setup, set_count, clear_flags, set_address, set_toggles, take_incoming, flags, status, packet, request, toggled, has_bit, weight as weight_of};
ghost use Rattle.port.specs.Launches.{advanced, ends_plain, ends_out, ends_in};
ghost use Rattle.parts.specs.Records.{chip_of, with_sending, with_setup};

use super::ChipRecord;
use crate::inboxes::Inbox;
use crate::rooms::Room;
use port::Toggle;
use port::registers::{
    HXFRDN, PACKET_MOST, RCVDAV, RCVTOG0, RCVTOG1, SETUP_LENGTH, SNDTOG0, SNDTOG1,
};
use port::results::SUCCESS;
use std::alloc::{AllocError, Global};

// HIRQ: the send buffer is free
const SNDBAV: u8 = 0x08;

// HRSL: the send toggle, and the receive toggle
const SNDTOGRD: u8 = 0x20;

const RCVTOGRD: u8 = 0x10;

// Whether the bit of this weight, a power of two, is set.
fn has_bit(byte: u8, weight: u8) -> bool
    requires { 0 < weight }
    ensures { result ≡ has_bit weight byte }
{
    byte / weight % 2 == 1
}

// A flag as the weight that it has in a register.
fn weight(flag: bool, weight: u8) -> u8
    ensures { result ≡ weight_of flag weight }
{
    if flag { weight } else { 0 }
}

// A toggle after one bit asks for DATA1 and one for DATA0: both, or neither, leave it as it is.
fn set_toggle(to1: bool, to0: bool, toggle: Toggle) -> Toggle
    ensures { result ≡ toggled to1 to0 toggle }
{
    match (to1, to0) {
        (true, false) => Toggle::Data1,
        (false, true) => Toggle::Data0,
        _ => toggle,
    }
}

// A toggle after a transaction with this result: it flips on success and on nothing else.
fn advanced(code: u8, toggle: Toggle) -> Toggle
    ensures { result ≡ advanced code toggle }
{
    if code == SUCCESS {
        toggle.flipped()
    } else {
        toggle
    }
}

impl ChipRecord {
    pub fn new(alloc: Global) -> Result<ChipRecord, AllocError>
        ensures { IfOk result (λ c. chip_of c ≡ fresh_chip) }
    {
        let sending = Room::new(alloc, PACKET_MOST)?;
        let setup = Room::new(alloc, SETUP_LENGTH)?;
        let incoming = Inbox::new(alloc)?;
        Ok(ChipRecord {
            sending,
            count: 0,
            setup,
            incoming,
            address: 0,
            send_toggle: Toggle::Data0,
            receive_toggle: Toggle::Data0,
            result: 0,
            done: false,
            free: true,
            received: false,
        })
    }

    pub fn load_sending(&mut self, byte: u8)
        ensures { chip_of self.new ≡ load_sending (chip_of self.old) byte }
    {
        self.sending.load(byte);
    }

    pub fn load_setup(&mut self, byte: u8)
        ensures { chip_of self.new ≡ load_setup (chip_of self.old) byte }
    {
        self.setup.load(byte);
    }

    pub fn set_count(&mut self, count: u8)
        ensures { chip_of self.new ≡ set_count (chip_of self.old) count }
    {
        if usize::from(count) <= PACKET_MOST {
            self.count = count;
            self.free = false;
        }
    }

    pub fn clear_flags(&mut self, byte: u8)
        ensures { chip_of self.new ≡ clear_flags (chip_of self.old) byte }
    {
        if has_bit(byte, HXFRDN) {
            self.done = false;
        }
        if has_bit(byte, RCVDAV) {
            self.received = false;
            self.incoming.clear();
        }
    }

    pub fn set_address(&mut self, byte: u8)
        ensures { chip_of self.new ≡ set_address (chip_of self.old) byte }
    {
        self.address = byte % 128;
    }

    pub fn set_toggles(&mut self, byte: u8)
        ensures { chip_of self.new ≡ set_toggles (chip_of self.old) byte }
    {
        self.send_toggle = set_toggle(
            has_bit(byte, SNDTOG1),
            has_bit(byte, SNDTOG0),
            self.send_toggle,
        );
        self.receive_toggle = set_toggle(
            has_bit(byte, RCVTOG1),
            has_bit(byte, RCVTOG0),
            self.receive_toggle,
        );
    }

    pub fn take_incoming(&mut self) -> u8
        ensures value { result ≡ slice_index (chip_of self.old).incoming 0 }
        ensures after { chip_of self.new ≡ take_incoming (chip_of self.old) }
    {
        self.incoming.take()
    }

    pub fn left(&self) -> u8
        ensures { result ≡ length (chip_of self.now).incoming }
    {
        self.incoming.left()
    }

    pub fn flags(&self) -> u8
        ensures { result ≡ flags (chip_of self.now) }
    {
        weight(self.done, HXFRDN) + weight(self.free, SNDBAV) + weight(self.received, RCVDAV)
    }

    pub fn address(&self) -> u8
        ensures { result ≡ (chip_of self.now).address }
    {
        self.address
    }

    pub fn status(&self) -> u8
        ensures { result ≡ status (chip_of self.now) }
    {
        SNDTOGRD * u8::from(self.send_toggle)
            + RCVTOGRD * u8::from(self.receive_toggle)
            + self.result
    }

    // Whether a received packet has not been cleared yet.
    pub fn holds_packet(&self) -> bool
        ensures { result ≡ (chip_of self.now).received }
    {
        self.received
    }

    pub fn send_toggle(&self) -> Toggle
        ensures { result ≡ (chip_of self.now).send_toggle }
    {
        self.send_toggle
    }

    pub fn receive_toggle(&self) -> Toggle
        ensures { result ≡ (chip_of self.now).receive_toggle }
    {
        self.receive_toggle
    }

    // Brings the send buffer to the packet that an OUT sends.
    pub fn make_packet(&mut self)
        ensures { chip_of self.new ≡ with_sending (chip_of self.old) (packet (chip_of self.old)) }
    {
        self.sending.fill_to(usize::from(self.count));
    }

    // Brings the setup buffer to the eight bytes that a SETUP sends.
    pub fn make_request(&mut self)
        ensures { chip_of self.new ≡ with_setup (chip_of self.old) (request (chip_of self.old)) }
    {
        self.setup.fill_to(SETUP_LENGTH);
    }

    pub fn sending(&self) -> &[u8]
        ensures { result.now ≡ (chip_of self.now).sending }
    {
        self.sending.as_slice()
    }

    pub fn setup(&self) -> &[u8]
        ensures { result.now ≡ (chip_of self.now).setup }
    {
        self.setup.as_slice()
    }

    // The end of every launch: this result, the send and setup buffers empty, the send count 0, free and done set.
    fn finish(&mut self, code: u8)
        requires { code < 16 }
        ensures { chip_of self.new ≡ ends_plain code (chip_of self.old) }
    {
        self.sending.clear();
        self.setup.clear();
        self.count = 0;
        self.result = code;
        self.done = true;
        self.free = true;
    }

    // The end of a launch that moves no toggle and brings no packet. Of the code the low four bits count, here and below.
    pub fn end_plain(&mut self, code: u8)
        ensures { chip_of self.new ≡ ends_plain (code % 16) (chip_of self.old) }
    {
        self.finish(code % 16);
    }

    // The end of an OUT: result 0 flips the send toggle.
    pub fn end_out(&mut self, code: u8)
        ensures { chip_of self.new ≡ ends_out (code % 16) (chip_of self.old) }
    {
        let code = code % 16;
        self.send_toggle = advanced(code, self.send_toggle);
        self.finish(code);
    }

    // The end of an IN: with result 0 the packet, which the device has left in the receive buffer, counts as received, and the
    // receive toggle flips.
    pub fn end_in(&mut self, code: u8)
        ensures { chip_of self.new ≡ ends_in (code % 16) (chip_of self.old).incoming (chip_of self.old) }
    {
        let code = code % 16;
        self.receive_toggle = advanced(code, self.receive_toggle);
        self.received = self.received || code == SUCCESS;
        self.finish(code);
    }
}
