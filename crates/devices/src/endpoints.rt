// One endpoint of a device on the bench.
use crate::packets::Packet;
use crate::spots::Spot;
use parts::Room;
use port::Toggle;
use std::collections::VecDeque;

mod methods;
mod views;

pub use views::EndpointState;

#[derive(Drop)]
pub struct DeviceEndpoint {
    spot: Spot,
    toggle: Toggle,
    halted: bool,
    // its size is the endpoint's capacity
    taken: Room,
    waiting: VecDeque<Packet>,
}
