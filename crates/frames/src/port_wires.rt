// A wire over any port: each data byte is one access of the port.
ghost use Rattle.std.specs.Prelude.{◌≡◌, length, replicate};
ghost use Rattle.frames.specs.Exchanges.{after_put_body, got_body, after_got_body, first_answer, body_answers, after_body};
ghost use Rattle.frames.specs.PortWires.{Heard};
ghost use Rattle.frames.specs.contracts.port_wires.PortWire.{the_row};
ghost use Rattle.std.specs.Borrow.{sem, follows};

use crate::duplexes::Duplex;
use crate::formats::{BODY_MOST, is_put};
use crate::registers::Register;
use crate::wires::Wire;
use port::Port;
use port::registers::HIRQ;

#[derive(Drop)]
pub struct PortWire<P> {
    port: P,
    duplex: Duplex,
}

impl<P: Port> PortWire<P> {
    // A wire to the port.
    pub fn new(port: P, duplex: Duplex) -> PortWire<P>
        ensures { result ≡ record { port = port; duplex = duplex } }
    {
        PortWire { port, duplex }
    }

    // The port, to look at.
    pub fn port(&self) -> &P
        ensures { result.now ≡ self.now.port }
    {
        &self.port
    }

    // The port, to be used by itself between exchanges: the wire then leads to the port as it was left, in the same mode.
    pub fn port_mut(&mut self) -> &mut P
        ensures value { result.now ≡ self.old.port }
        ensures* back { sem 𝓛 (follows (the_row P.row) P.row self.entry.ghost_name result.ghost_name (λ p. record { port = p; duplex = self.old.duplex })) }
    {
        &mut self.port
    }

    // The port, handed back.
    pub fn into_port(self) -> P
        ensures { result ≡ self.port }
    {
        self.port
    }
}

// What answers the command byte.
fn status<P: Port>(port: &mut P, duplex: Duplex) -> u8
    ensures value { result ≡ first_answer duplex (P.meaning port.old) }
    ensures after { P.meaning port.new ≡ P.meaning port.old }
{
    match duplex {
        Duplex::Half => 0,
        Duplex::Full => port.get(HIRQ),
    }
}

// Puts and gets have a loop each: the two have only the way of the register in common.
fn put_body<P: Port>(port: &mut P, register: Register, body: &mut [u8])
    ensures answers { body.new ≡ replicate (length body.old) 0 }
    ensures after { P.meaning port.new ≡ after_put_body register.number body.old (P.meaning port.old) }
{
    let mut at = register;
    for byte in body.iter_mut() {
        port.put(at.number, *byte);
        *byte = 0;
        at = at.next();
    }
}

fn get_body<P: Port>(port: &mut P, register: Register, body: &mut [u8])
    ensures answers { body.new ≡ got_body register.number (length body.old) (P.meaning port.old) }
    ensures after { P.meaning port.new ≡ after_got_body register.number (length body.old) (P.meaning port.old) }
{
    let mut at = register;
    for byte in body.iter_mut() {
        *byte = port.get(at.number);
        at = at.next();
    }
}

// The data bytes of a frame, at most 64, with the accesses that its command asks for.
fn access_body<P: Port>(port: &mut P, command: u8, body: &mut [u8])
    ensures answers { body.new ≡ body_answers command body.old (P.meaning port.old) }
    ensures after { P.meaning port.new ≡ after_body command body.old (P.meaning port.old) }
{
    let register = Register::named_by(command);
    if is_put(command) {
        put_body(port, register, body);
    } else {
        get_body(port, register, body);
    }
}

impl<P: Port> Wire for PortWire<P> {
    ghost meaning = { λ s. P.meaning s.port };

    ghost duplex = { λ s. s.duplex };

    ghost heard = { λ s bytes t. Heard s.duplex t.duplex bytes (P.meaning s.port) (P.meaning t.port) };

    fn exchange(&mut self, bytes: &mut [u8]) {
        let Some((first, rest)) = bytes.split_first_mut() else {
            return;
        };
        let command = *first;
        *first = status(&mut self.port, self.duplex);
        let end = rest.len().min(BODY_MOST);
        access_body(&mut self.port, command, &mut rest[..end]);
    }
}
