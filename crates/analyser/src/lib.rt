// What goes over a wire, for a person with a logic analyser: a wire that keeps its exchanges, an exchange in words, and a message overheard.
#![tactic(auto)]

mod exchanges;
mod listening;
mod taps;
#[cfg(test)]
mod tests;

pub use exchanges::Exchange;
pub use listening::{Flags, Overheard, get_flags, listen};
pub use taps::Tap;
