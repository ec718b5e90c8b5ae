ghost use Rattle.std.specs.Prelude.{◌≡◌, replicate, Some, None, slice_set};
ghost use Rattle.pipes.specs.Tables.{with_state};
ghost use Rattle.pipes.specs.Standings.{next_standing};
ghost use Rattle.pipes.specs.Tables.{pipe_at, leads_to, some_pipe_at};

use super::{PIPES, Table};
use crate::pipes::{Event, Pipe};
use port::{Direction, Toggle};

// Whether the pipe is there and has this address, endpoint and direction.
fn leads_to(place: Option<Pipe>, address: u8, endpoint: u8, direction: Direction) -> bool
    ensures { result ≡ leads_to address endpoint direction place }
{
    place.is_some_and(|pipe| {
        pipe.address == address && pipe.endpoint == endpoint && pipe.direction == direction
    })
}

impl Table {
    // Every pipe absent.
    pub fn new() -> Table
        ensures { result.pipes ≡ replicate 8 None }
    {
        Table {
            pipes: [None; PIPES],
        }
    }

    // The pipe of this number, if it is there.
    pub fn pipe(&self, number: u8) -> Option<Pipe>
        ensures { result ≡ pipe_at self.now.pipes number }
    {
        *self.pipes.get(usize::from(number))?
    }

    // Another pipe in this place, or none.
    pub fn store(&mut self, number: u8, pipe: Option<Pipe>)
        ensures { self.new.pipes ≡ slice_set self.old.pipes number pipe }
    {
        // not by get_mut: a write through it is not followed into the table, which keeps a fact of its places
        let place = usize::from(number);
        if place < PIPES {
            self.pipes[place] = pipe;
        }
    }

    // What came of a call on the pipe in this place: its toggle afterwards, and the event that its standing follows.
    pub fn settle(&mut self, number: u8, pipe: Pipe, toggle: Toggle, event: Event)
        ensures { self.new.pipes ≡ slice_set self.old.pipes number (Some (with_state pipe toggle (next_standing pipe.standing event))) }
    {
        let mut settled = Pipe { toggle, ..pipe };
        settled.standing.advance(event);
        self.store(number, Some(settled));
    }

    // Whether some pipe has this address, endpoint and direction: the three that name an endpoint, of a plan or of a pipe.
    pub fn holds(&self, address: u8, endpoint: u8, direction: Direction) -> bool
        ensures { result ≡ some_pipe_at address endpoint direction self.now.pipes }
    {
        self.pipes
            .iter()
            .any(|place| leads_to(*place, address, endpoint, direction))
    }
}
