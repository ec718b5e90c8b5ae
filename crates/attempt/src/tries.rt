// The four kinds of try. Each puts the address, sets the toggle where there is one, loads what is to be sent, launches, gets the
// result, reads what was received, and clears what the launch left set. A try answers with a pair of plain numbers, as R31 has them: every
// result code can come, and the toggle is one bit.
ghost use Rattle.std.specs.Prelude.{◌≡◌, [], length, Some, None};
ghost use Rattle.port.specs.Accesses.{got};
ghost use Rattle.attempt.specs.Tries.{begun, send_control, receive_control, launched, result_got, out_answer, after_out, stage_answer, after_stage, arrived, room_read, after_read, in_answer, in_arrival, in_room, after_in};

use crate::packets::Packet;
use crate::receipts::{launch, result};
use port::registers::{
    HCTL, HIRQ, HXFRDN, LAUNCH_HS_IN, LAUNCH_OUT, LAUNCH_SETUP, PERADDR, RCVBC, RCVDAV, RCVFIFO,
    RCVTOG0, RCVTOG1, SETUP_LENGTH, SNDBC, SNDFIFO, SNDTOG0, SNDTOG1, SUDFIFO,
};
use port::results::SUCCESS;
use port::{Port, Toggle};

// What an IN brought: three cases, so neither an `Option` nor a `Result`.
#[derive(Clone, Copy, Debug, PartialEq, Eq)]
pub enum Arrival {
    // no packet was received
    Nothing,
    // a packet of so many bytes, which stand at the front of the room
    Read(usize),
    // a packet that is longer than the room, and was not read
    TooLong,
}

fn send_control(toggle: Toggle) -> u8
    ensures { result ≡ send_control toggle }
{
    match toggle {
        Toggle::Data0 => SNDTOG0,
        Toggle::Data1 => SNDTOG1,
    }
}

fn receive_control(toggle: Toggle) -> u8
    ensures { result ≡ receive_control toggle }
{
    match toggle {
        Toggle::Data0 => RCVTOG0,
        Toggle::Data1 => RCVTOG1,
    }
}

// The beginning of every try.
fn begin<P: Port>(port: &mut P, address: u8, control: Option<u8>)
    ensures { P.meaning port.new ≡ begun address control (P.meaning port.old) }
{
    port.put(PERADDR, address);
    if let Some(control) = control {
        port.put(HCTL, control);
    }
}

// The middle of every try: the launch, and its result by R31.
fn transact<P: Port>(port: &mut P, value: u8) -> u8
    ensures status { result ≡ got 31 (launched value (P.meaning port.old)) }
    ensures after { P.meaning port.new ≡ result_got (launched value (P.meaning port.old)) }
{
    let receipt = launch(port, value);
    result(port, receipt)
}

// OUT: sends the packet to an endpoint, and answers with the result code and the send toggle after it.
pub fn try_out<P: Port>(
    port: &mut P,
    address: u8,
    endpoint: u8,
    toggle: Toggle,
    packet: Packet,
) -> (u8, u8)
    ensures answer { result ≡ out_answer address endpoint toggle packet.entry.bytes.now (P.meaning port.old) }
    ensures after { P.meaning port.new ≡ after_out address endpoint toggle packet.entry.bytes.now (P.meaning port.old) }
{
    let bytes = packet.bytes();
    begin(port, address, Some(send_control(toggle)));
    port.put_many(SNDFIFO, bytes);
    port.put(SNDBC, bytes.len() as u8);
    let status = transact(port, LAUNCH_OUT + endpoint % 16);
    port.put(HIRQ, HXFRDN);
    (status % 16, status / 32 % 2)
}

// A stage of a control request: SETUP with its eight bytes, or HS-IN with none.
fn try_stage<P: Port>(port: &mut P, address: u8, value: u8, setup: &[u8]) -> (u8, u8)
    ensures answer { result ≡ stage_answer address value setup.now (P.meaning port.old) }
    ensures after { P.meaning port.new ≡ after_stage address value setup.now (P.meaning port.old) }
{
    begin(port, address, None);
    port.put_many(SUDFIFO, setup);
    let status = transact(port, value);
    port.put(HIRQ, HXFRDN);
    (status % 16, 0)
}

// SETUP: sends eight setup bytes to a device, and answers with the result code and 0.
pub fn try_setup<P: Port>(port: &mut P, address: u8, setup: &[u8; SETUP_LENGTH]) -> (u8, u8)
    ensures answer { result ≡ stage_answer address 0x10 setup.now (P.meaning port.old) }
    ensures after { P.meaning port.new ≡ after_stage address 0x10 setup.now (P.meaning port.old) }
{
    try_stage(port, address, LAUNCH_SETUP, setup)
}

// HS-IN: asks a device whether it did what the last SETUP asked, and answers with the result code and 0.
pub fn try_hs_in<P: Port>(port: &mut P, address: u8) -> (u8, u8)
    ensures answer { result ≡ stage_answer address 0x80 [] (P.meaning port.old) }
    ensures after { P.meaning port.new ≡ after_stage address 0x80 [] (P.meaning port.old) }
{
    try_stage(port, address, LAUNCH_HS_IN, &[])
}

// The packet that an IN with result 0 received.
fn read<P: Port>(port: &mut P, room: &mut [u8]) -> Arrival
    ensures arrival { result ≡ arrived room.old (P.meaning port.old) }
    ensures bytes { room.new ≡ room_read room.old (P.meaning port.old) }
    ensures after { P.meaning port.new ≡ after_read room.old (P.meaning port.old) }
{
    let length = usize::from(port.get(RCVBC));
    if length > room.len() {
        return Arrival::TooLong;
    }
    let front = &mut room[..length];
    port.get_many(RCVFIFO, front);
    Arrival::Read(length)
}

// IN: asks an endpoint for a packet of at most as many bytes as the room has, the packet size. Answers with the result code and
// the receive toggle after it, and what came.
pub fn try_in<P: Port>(
    port: &mut P,
    address: u8,
    endpoint: u8,
    toggle: Toggle,
    room: &mut [u8],
) -> ((u8, u8), Arrival)
    ensures answer { result.0 ≡ in_answer address endpoint toggle room.old (P.meaning port.old) }
    ensures arrival { result.1 ≡ in_arrival address endpoint toggle room.old (P.meaning port.old) }
    ensures bytes { room.new ≡ in_room address endpoint toggle room.old (P.meaning port.old) }
    ensures after { P.meaning port.new ≡ after_in address endpoint toggle room.old (P.meaning port.old) }
{
    begin(port, address, Some(receive_control(toggle)));
    let status = transact(port, endpoint % 16);
    let answer = (status % 16, status / 16 % 2);
    if answer.0 != SUCCESS {
        port.put(HIRQ, HXFRDN);
        return (answer, Arrival::Nothing);
    }
    let arrival = read(port, room);
    port.put(HIRQ, HXFRDN | RCVDAV);
    (answer, arrival)
}
