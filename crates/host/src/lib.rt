// The host: a pipe table over any port, and the calls open, send, fetch, recover, look and close.
#![tactic(auto)]

pub mod cases;
mod fetching;
mod hosts;
pub mod laws;
mod opening;
mod sending;
mod tallies;
mod tries;

pub use hosts::Host;
pub use pipes::{Answer, Looked, Pipe, PipePlan, Refusal, Standing};
