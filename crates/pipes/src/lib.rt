// Pipes: the table of eight, their standings, the counting rule of their tries, the checks of the calls, and the answers. Everything of the
// host that no port takes part in.
#![tactic(auto)]

mod answers;
mod checks;
mod counting;
mod pipes;
mod refusals;
mod tables;

pub use answers::{Answer, Looked};
pub use checks::{admit_fetch, admit_open, admit_recover, admit_send, present};
pub use counting::{Counts, Verdict};
pub use pipes::{Event, Pipe, PipePlan, Standing};
pub use refusals::Refusal;
pub use tables::Table;
