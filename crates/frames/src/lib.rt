// Register accesses as SPI frames: the format of a frame, wires that exchange frames, a wire over any port and a port over any wire.
#![tactic(auto)]

mod duplexes;
mod formats;
mod framed_ports;
pub mod laws;
mod layers;
mod port_wires;
mod registers;
mod wires;

pub use duplexes::Duplex;
pub use formats::{Access, BODY_MOST, FRAME_MOST, read_frame, write_frame};
pub use framed_ports::FramedPort;
pub use layers::exchange_layered;
pub use port_wires::PortWire;
pub use registers::{REGISTER_MOST, stays};
pub use wires::Wire;
