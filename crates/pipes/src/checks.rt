// The checks of each call, in their order: the refusal of a call that declines, or the pipe that it works on.
ghost use Rattle.std.specs.Prelude.{◌≡◌};
ghost use Rattle.pipes.specs.Checks.{good_size, good_buffer, admit_open, present, by_standing, sendable, fetchable, recoverable, admit_send, admit_fetch, admit_recover};

use crate::pipes::{Pipe, PipePlan, Standing};
use crate::refusals::Refusal;
use crate::tables::{PIPES, Table};
use port::Direction;

// the longest message and buffer
const MESSAGE_MOST: usize = 1024;

fn good_size(size: u8) -> bool
    ensures { result ≡ good_size size }
{
    matches!(size, 8 | 16 | 32 | 64)
}

// The pipe of an open: in step, with DATA0.
pub fn admit_open(table: &Table, number: u8, plan: PipePlan) -> Result<Pipe, Refusal>
    ensures { result ≡ admit_open table.now.pipes number plan }
{
    if usize::from(number) >= PIPES {
        return Err(Refusal::NoSuchPipe);
    }
    if table.pipe(number).is_some() {
        return Err(Refusal::PipeThere);
    }
    if !(1..=127).contains(&plan.address) {
        return Err(Refusal::BadAddress);
    }
    if !(1..=15).contains(&plan.endpoint) {
        return Err(Refusal::BadEndpoint);
    }
    if !good_size(plan.size) {
        return Err(Refusal::BadSize);
    }
    if plan.limit == 0 {
        return Err(Refusal::NoLimit);
    }
    if table.holds(plan.address, plan.endpoint, plan.direction) {
        return Err(Refusal::EndpointTaken);
    }
    Ok(Pipe::new(plan))
}

// The pipe of a call that needs one.
pub fn present(table: &Table, number: u8) -> Result<Pipe, Refusal>
    ensures { result ≡ present table.now.pipes number }
{
    if usize::from(number) >= PIPES {
        return Err(Refusal::NoSuchPipe);
    }
    table.pipe(number).ok_or(Refusal::PipeAbsent)
}

// Whether the pipe is in step, as a send and a fetch need it.
fn in_step(pipe: Pipe) -> Result<Pipe, Refusal>
    ensures { result ≡ by_standing pipe pipe.standing }
{
    match pipe.standing {
        Standing::InStep => Ok(pipe),
        Standing::Doubtful => Err(Refusal::PipeDoubtful),
        Standing::Halted => Err(Refusal::PipeHalted),
    }
}

// Whether the pipe takes a message of this length.
fn sendable(pipe: Pipe, length: usize) -> Result<Pipe, Refusal>
    ensures { result ≡ sendable length pipe }
{
    if pipe.direction == Direction::In {
        return Err(Refusal::WrongDirection);
    }
    if !(1..=MESSAGE_MOST).contains(&length) {
        return Err(Refusal::BadLength);
    }
    in_step(pipe)
}

// The pipe of a send.
pub fn admit_send(table: &Table, number: u8, length: usize) -> Result<Pipe, Refusal>
    ensures { result ≡ admit_send table.now.pipes number length }
{
    sendable(present(table, number)?, length)
}

// Whether a buffer of this length holds a whole number of packets, one at least, and is not too long.
fn good_buffer(size: u8, length: usize) -> bool
    ensures { result ≡ good_buffer size length }
{
    (1..=MESSAGE_MOST).contains(&length) && size > 0 && length % usize::from(size) == 0
}

// Whether the pipe has packets for a buffer of this length.
fn fetchable(pipe: Pipe, length: usize) -> Result<Pipe, Refusal>
    ensures { result ≡ fetchable length pipe }
{
    if pipe.direction == Direction::Out {
        return Err(Refusal::WrongDirection);
    }
    if !good_buffer(pipe.size, length) {
        return Err(Refusal::BadLength);
    }
    in_step(pipe)
}

// The pipe of a fetch.
pub fn admit_fetch(table: &Table, number: u8, length: usize) -> Result<Pipe, Refusal>
    ensures { result ≡ admit_fetch table.now.pipes number length }
{
    fetchable(present(table, number)?, length)
}

fn recoverable(pipe: Pipe) -> Result<Pipe, Refusal>
    ensures { result ≡ recoverable pipe }
{
    match pipe.standing {
        Standing::InStep => Err(Refusal::PipeInStep),
        Standing::Doubtful | Standing::Halted => Ok(pipe),
    }
}

// The pipe of a recover.
pub fn admit_recover(table: &Table, number: u8) -> Result<Pipe, Refusal>
    ensures { result ≡ admit_recover table.now.pipes number }
{
    recoverable(present(table, number)?)
}
