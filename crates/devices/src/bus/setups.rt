// Adding endpoints and packets to the devices of a bench.
ghost use Rattle.std.specs.Prelude.{◌≡◌, true, false, ◌&&◌, MatchOption, MatchResult};
ghost use Rattle.devices.specs.Devices.{devices_of, endpoints_of};
ghost use Rattle.devices.specs.Setups.{Adds, planned, in_range, vacant, more_endpoints, packet_fits, packet_place, more_packets};

use super::Devices;
use crate::endpoints::DeviceEndpoint;
use crate::plans::{EndpointPlan, SetupError};
use crate::spots::Spot;
use port::Direction;
use port::registers::PACKET_MOST;
use std::alloc::AllocError;

// the most endpoints on a bench, and the most packets that wait at one
const ENDPOINTS_MOST: usize = 8;

const PACKETS_MOST: usize = 16;

// Whether every value of the plan is in range.
fn in_range(plan: EndpointPlan) -> bool
    ensures { result ≡ in_range plan }
{
    (1..=127).contains(&plan.address)
        && (1..=15).contains(&plan.number)
        && plan.toggle <= 1
        && plan.capacity <= 4096
}

impl Devices {
    // Whether there is room for one endpoint more, and none at the plan's place yet.
    fn vacant(&self, plan: EndpointPlan) -> bool
        ensures { result ≡ vacant plan (endpoints_of self.now) }
    {
        self.endpoints.len() < ENDPOINTS_MOST && self.place(plan.spot()).is_none()
    }

    // Whether the plan is in range, and its place vacant.
    fn admits(&self, plan: EndpointPlan) -> bool
        ensures { result ≡ (in_range plan && vacant plan (endpoints_of self.now)) }
    {
        in_range(plan) && self.vacant(plan)
    }

    fn push_endpoint(&mut self, plan: EndpointPlan) -> Result<(), AllocError>
        ensures { MatchResult result (λ _. devices_of self.new ≡ more_endpoints (planned plan) (devices_of self.old)) (λ _. devices_of self.new ≡ devices_of self.old) }
    {
        let endpoint = DeviceEndpoint::new(*self.endpoints.allocator(), plan)?;
        self.endpoints.push(endpoint)?;
        Ok(())
    }

    // The place of the endpoint that the packet is for, if the packet fits and the endpoint is there and has room for it.
    fn packet_place(&self, address: u8, number: u8, bytes: &[u8]) -> Option<usize>
        ensures { MatchOption result (packet_fits address number bytes.now (devices_of self.now) ≡ false) (λ i. (packet_fits address number bytes.now (devices_of self.now) ≡ true) × (i ≡ packet_place address number (devices_of self.now))) }
    {
        let i = self.place(Spot::new(address, number, Direction::In))?;
        if bytes.len() <= PACKET_MOST && self.endpoints[i].packets() < PACKETS_MOST {
            Some(i)
        } else {
            None
        }
    }

    // One endpoint more.
    pub fn add_endpoint(&mut self, plan: EndpointPlan) -> Result<(), SetupError>
        ensures { Adds (in_range plan && vacant plan (endpoints_of self.old)) (more_endpoints (planned plan) (devices_of self.old)) self.old result self.new }
    {
        if !self.admits(plan) {
            return Err(SetupError::Refused);
        }
        self.push_endpoint(plan)?;
        Ok(())
    }

    // One packet more that waits at an IN endpoint.
    #[tactic(auto, using(crate::proofs::Rows::rows))]
    pub fn add_packet(&mut self, address: u8, number: u8, bytes: &[u8]) -> Result<(), SetupError>
        ensures { Adds (packet_fits address number bytes.now (devices_of self.old)) (more_packets (packet_place address number (devices_of self.old)) bytes.now (devices_of self.old)) self.old result self.new }
    {
        let Some(i) = self.packet_place(address, number, bytes) else {
            return Err(SetupError::Refused);
        };
        self.endpoints[i].add_packet(bytes)?;
        Ok(())
    }
}
