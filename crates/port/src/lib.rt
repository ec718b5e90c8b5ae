// What a port to the USB host chip is: its four register accesses and what they mean, and the words that both need.
#![tactic(auto)]

pub mod accesses;
pub mod directions;
pub mod fates;
pub mod laws;
pub mod registers;
pub mod results;
pub mod setups;
pub mod toggles;
pub mod transactions;

pub use accesses::Port;
pub use directions::Direction;
pub use fates::Fate;
pub use setups::Heard;
pub use toggles::Toggle;
pub use transactions::{IllegalLaunch, Transaction};
