// What is printed of the bench: a line for each endpoint, and one for the fates left.
ghost use Rattle.std.specs.Prelude.{◌≡◌, Some};
ghost use Rattle.bench.specs.Chips.{bus_of};
ghost use Rattle.devices.specs.Endpoints.{endpoint_of};
ghost use Rattle.scripts.specs.Showing.{place_text, state_text, held_text, waiting_text, bus_text};
ghost use Rattle.scripts.specs.Words.{direction_word, life_word};

use crate::hexes::Hex;
use bench::{BenchChip, DeviceEndpoint};
use port::Direction;
use std::fmt;

fn direction_word(direction: Direction) -> &'static str
    ensures { result.now ≡ direction_word direction }
{
    match direction {
        Direction::Out => "out",
        Direction::In => "in",
    }
}

fn life_word(halted: bool) -> &'static str
    ensures { result.now ≡ life_word halted }
{
    if halted { "halted" } else { "live" }
}

// Where an endpoint is.
#[derive(Clone, Copy)]
struct Place<'a>(&'a DeviceEndpoint);

impl fmt::Display for Place<'_> {
    ghost output = { λ s. Some (place_text (endpoint_of s.0.now)) };

    fn fmt<W: fmt::Write>(&self, f: &mut fmt::Formatter<W>) -> fmt::Result {
        let state = self.0.state();
        let direction = direction_word(state.direction);
        write!(f, "cell {} {} {direction}", state.address, state.number)
    }
}

// Its state.
#[derive(Clone, Copy)]
struct State<'a>(&'a DeviceEndpoint);

impl fmt::Display for State<'_> {
    ghost output = { λ s. Some (state_text (endpoint_of s.0.now)) };

    fn fmt<W: fmt::Write>(&self, f: &mut fmt::Formatter<W>) -> fmt::Result {
        let state = self.0.state();
        let toggle = u8::from(state.toggle);
        let life = life_word(state.halted);
        write!(f, "toggle {toggle} {life} capacity {}", state.capacity)
    }
}

// The packets that wait, `none` where there are none.
#[derive(Clone, Copy)]
struct Waiting<'a>(&'a DeviceEndpoint);

impl fmt::Display for Waiting<'_> {
    ghost output = { λ s. Some (waiting_text (endpoint_of s.0.now).waiting) };

    fn fmt<W: fmt::Write>(&self, f: &mut fmt::Formatter<W>) -> fmt::Result {
        if self.0.packets() == 0 {
            return write!(f, " none");
        }
        // by place: an iterator over packets would have no type that can be named
        for place in 0..self.0.packets() {
            if let Some(packet) = self.0.packet(place) {
                write!(f, " {}", Hex(packet))?;
            }
        }
        Ok(())
    }
}

// What an endpoint holds: the bytes that it has taken, or the packets that wait at it.
#[derive(Clone, Copy)]
struct Held<'a>(&'a DeviceEndpoint);

impl fmt::Display for Held<'_> {
    ghost output = { λ s. Some (held_text (endpoint_of s.0.now)) };

    fn fmt<W: fmt::Write>(&self, f: &mut fmt::Formatter<W>) -> fmt::Result {
        let state = self.0.state();
        match state.direction {
            Direction::Out => write!(f, "taken {}", Hex(state.taken)),
            Direction::In => write!(f, "waiting{}", Waiting(self.0)),
        }
    }
}

// The endpoints of a chip in the order of set-up, and how many fates are left.
#[derive(Clone, Copy)]
pub(crate) struct Shown<'a>(pub(crate) &'a BenchChip);

impl fmt::Display for Shown<'_> {
    ghost output = { λ s. Some (bus_text (bus_of s.0.now)) };

    fn fmt<W: fmt::Write>(&self, f: &mut fmt::Formatter<W>) -> fmt::Result {
        for endpoint in self.0.endpoints() {
            let place = Place(endpoint);
            let state = State(endpoint);
            writeln!(f, "{place} {state} {}", Held(endpoint))?;
        }
        writeln!(f, "fates {}", self.0.fates_left())
    }
}
