// The devices on a bench bus, in memory: their endpoints, how they are set up, and how they react to a transaction.
#![tactic(auto)]

pub mod bus;
pub mod endpoints;
mod packets;
pub mod plans;
mod spots;

pub use bus::Devices;
pub use endpoints::{DeviceEndpoint, EndpointState};
pub use plans::{EndpointPlan, SetupError};
