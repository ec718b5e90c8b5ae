// Scripts, one command a line: reading a line, obeying it on a bench chip and a host over it, and the words that it prints.
#![tactic(auto)]

mod benches;
mod buses;
mod commands;
mod errors;
mod hexes;
mod machines;
mod numbers;
mod reading;
mod running;
mod saying;
mod showing;
#[cfg(test)]
mod tests;
mod words;

pub use buses::Bus;
pub use commands::Command;
pub use errors::LineError;
pub use hexes::Hex;
pub use machines::Machine;
pub use running::{Vocabulary, run};
pub use saying::{Part, Said, Verb};
