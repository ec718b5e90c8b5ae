// The bench chip: a port in memory, with devices that can be set up and faults that can be injected.
#![tactic(auto)]

mod boards;
mod chips;
pub mod laws;

pub use chips::BenchChip;
pub use devices::{DeviceEndpoint, EndpointPlan, EndpointState, SetupError};
