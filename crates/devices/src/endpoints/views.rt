// What a person may see of an endpoint.
ghost use Rattle.std.specs.Prelude.{◌≡◌, ◌<◌, ◌≤◌, [], length, MatchOption, slice_index_or};
ghost use Rattle.devices.specs.Endpoints.{endpoint_of};
ghost use Rattle.devices.specs.Views.{Shows};

use super::DeviceEndpoint;
use port::{Direction, Toggle};

// An endpoint's state but for the packets that wait.
#[derive(Clone, Copy)]
pub struct EndpointState<'a> {
    pub address: u8,
    pub number: u8,
    pub direction: Direction,
    pub toggle: Toggle,
    pub halted: bool,
    pub capacity: usize,
    // the bytes taken so far, in order
    pub taken: &'a [u8],
}

impl DeviceEndpoint {
    pub fn state(&self) -> EndpointState<'_>
        ensures { Shows (endpoint_of self.now) result }
    {
        EndpointState {
            address: self.spot.address,
            number: self.spot.number,
            direction: self.spot.direction,
            toggle: self.toggle,
            halted: self.halted,
            capacity: self.taken.size(),
            taken: self.taken.as_slice(),
        }
    }

    // How many packets wait.
    pub fn packets(&self) -> usize
        ensures { result ≡ length (endpoint_of self.now).waiting }
    {
        self.waiting.len()
    }

    // The bytes of the packet at this place in the row, the first at 0.
    pub fn packet(&self, place: usize) -> Option<&[u8]>
        ensures { MatchOption result (length (endpoint_of self.now).waiting ≤ place) (λ bytes. (place < length (endpoint_of self.now).waiting) × (bytes.now ≡ slice_index_or (endpoint_of self.now).waiting place [])) }
    {
        self.waiting.get(place).map(|packet| packet.as_slice())
    }
}
