// The devices on the bench bus, and how they react to a transaction under a given fate. Where fates come from plays no part here.
ghost use Rattle.std.specs.Prelude.{◌≡◌, ◌%◌, [], map, length, if◌then◌else◌, None, nat_lt};
ghost use Rattle.devices.specs.Endpoints.{endpoint_of};
ghost use Rattle.port.specs.Endpoints.{place, lives};
ghost use Rattle.port.specs.Devices.{names_endpoint, named_direction, clear_target, clear_place, cleared_at, after_setup, heard_good};
ghost use Rattle.port.specs.Reactions.{out_outcome, in_outcome, setup_met, setup_outcome, hs_code, hs_outcome};
ghost use Rattle.parts.specs.Records.{inbox_bytes};
ghost use Rattle.devices.specs.Arrivals.{brings};
ghost use Rattle.devices.specs.Devices.{devices_of, endpoints_of, FindsPlace};

use crate::endpoints::DeviceEndpoint;
use crate::spots::Spot;
use parts::Inbox;
use port::registers::SETUP_LENGTH;
use port::results::{NAK, NO_ANSWER, STALL, SUCCESS};
use port::{Direction, Fate, Heard, Toggle};
use std::alloc::Global;
use std::array;

mod setups;

#[derive(Drop)]
pub struct Devices {
    endpoints: Vec<DeviceEndpoint>,
    heard: Option<Heard>,
}

// Whether the endpoint byte of a clear request names an endpoint at all.
fn names_endpoint(ee: u8) -> bool
    ensures { result ≡ names_endpoint ee }
{
    matches!(ee, 1..=15 | 0x81..=0x8f)
}

fn named_direction(ee: u8) -> Direction
    ensures { result ≡ named_direction ee }
{
    if ee < 0x80 {
        Direction::Out
    } else {
        Direction::In
    }
}

// The endpoint byte of eight setup bytes that are the clear request. A byte that is not there counts as 0.
fn clear_target(request: &[u8]) -> Option<u8>
    ensures { result ≡ clear_target request.now }
{
    let setup: [u8; SETUP_LENGTH] = array::from_fn(|place| request
        .get(place)
        .copied()
        .unwrap_or(0));
    match setup {
        [0x02, 0x01, 0, 0, ee, 0, 0, 0] if names_endpoint(ee) => Some(ee),
        _ => None,
    }
}

impl Devices {
    // No devices, and no setup heard.
    pub fn new(alloc: Global) -> Devices
        ensures { devices_of result ≡ record { endpoints = []; heard = None } }
    {
        Devices {
            endpoints: Vec::new(alloc),
            heard: None,
        }
    }

    pub fn endpoints(&self) -> &[DeviceEndpoint]
        ensures { map endpoint_of result.now ≡ endpoints_of self.now }
    {
        self.endpoints.as_slice()
    }

    // The place of the endpoint at this spot.
    fn place(&self, spot: Spot) -> Option<usize>
        ensures { FindsPlace (place spot.address spot.number spot.direction (endpoints_of self.now)) (endpoints_of self.now) result }
    {
        self.endpoints
            .iter()
            .position(|endpoint| endpoint.stands_at(spot))
    }

    // Whether some device answers at this address.
    fn lives(&self, address: u8) -> bool
        ensures { result ≡ lives address (endpoints_of self.now) }
    {
        self.endpoints
            .iter()
            .any(|endpoint| endpoint.has_address(address))
    }

    // OUT: 14 where there is no such endpoint.
    #[tactic(auto, using(crate::proofs::Rows::rows), unfolding(port::specs::Reactions::at_place))]
    pub fn out(&mut self, address: u8, number: u8, fate: Fate, toggle: Toggle, bytes: &[u8]) -> u8
        ensures code { result ≡ (out_outcome address fate (devices_of self.old) number toggle bytes.now).code }
        ensures after { devices_of self.new ≡ (out_outcome address fate (devices_of self.old) number toggle bytes.now).devices }
    {
        let Some(i) = self.place(Spot::new(address, number, Direction::Out)) else {
            return NO_ANSWER;
        };
        self.endpoints[i].out(fate, toggle, bytes)
    }

    // IN: 14 where there is no such endpoint. Where it brings a packet, the receive buffer holds it.
    #[tactic(auto, using(crate::proofs::Rows::rows), unfolding(port::specs::Reactions::at_place))]
    pub fn input(
        &mut self,
        address: u8,
        number: u8,
        fate: Fate,
        toggle: Toggle,
        into: &mut Inbox,
    ) -> u8
        ensures code { result ≡ (in_outcome address fate (devices_of self.old) number toggle).code }
        ensures after { devices_of self.new ≡ (in_outcome address fate (devices_of self.old) number toggle).devices }
        ensures bytes { inbox_bytes into.new ≡ (if brings fate result then (in_outcome address fate (devices_of self.old) number toggle).bytes else inbox_bytes into.old) }
    {
        let Some(i) = self.place(Spot::new(address, number, Direction::In)) else {
            return NO_ANSWER;
        };
        self.endpoints[i].input(fate, toggle, into)
    }

    // Does what the eight setup bytes ask. Whether that was possible, as it is kept of the setup that was heard.
    #[tactic(auto, using(crate::proofs::Rows::rows))]
    fn obey(&mut self, address: u8, request: &[u8]) -> bool
        ensures found { result ≡ nat_lt (clear_place address request.now (endpoints_of self.old)) (length (endpoints_of self.old)) }
        ensures after { devices_of self.new ≡ cleared_at (clear_place address request.now (endpoints_of self.old)) (devices_of self.old) }
    {
        let Some(i) = self.target(address, request) else {
            return false;
        };
        self.endpoints[i].clear();
        true
    }

    // The place of the endpoint that the eight setup bytes ask to clear.
    fn target(&self, address: u8, request: &[u8]) -> Option<usize>
        ensures { FindsPlace (clear_place address request.now (endpoints_of self.now)) (endpoints_of self.now) result }
    {
        let ee = clear_target(request)?;
        self.place(Spot::new(address, ee % 16, named_direction(ee)))
    }

    // Eight setup bytes that reached the device at this address.
    #[tactic(auto, unfolding(port::specs::Devices::after_setup))]
    fn hear(&mut self, address: u8, request: &[u8])
        ensures { devices_of self.new ≡ after_setup address request.now (devices_of self.old) }
    {
        let good = self.obey(address, request);
        self.heard = Some(Heard { address, good });
    }

    // A SETUP that the devices at this address may hear.
    fn answer_setup(&mut self, address: u8, fate: Fate, request: &[u8]) -> u8
        ensures code { result ≡ (setup_met address request.now (devices_of self.old) fate).code }
        ensures after { devices_of self.new ≡ (setup_met address request.now (devices_of self.old) fate).devices }
    {
        match fate {
            Fate::Arrives => {
                self.hear(address, request);
                SUCCESS
            }
            Fate::Lost(code) => code,
            Fate::Unheard(code) => {
                self.hear(address, request);
                code
            }
            Fate::Nak | Fate::Stall => NO_ANSWER,
        }
    }

    // SETUP: 14 where no device has the address.
    #[tactic(auto, unfolding(port::specs::Reactions::at_address))]
    pub fn setup(&mut self, address: u8, fate: Fate, request: &[u8]) -> u8
        ensures code { result ≡ (setup_outcome address fate (devices_of self.old) request.now).code }
        ensures after { devices_of self.new ≡ (setup_outcome address fate (devices_of self.old) request.now).devices }
    {
        if !self.lives(address) {
            return NO_ANSWER;
        }
        self.answer_setup(address, fate, request)
    }

    // Whether the last setup heard was good, and at this address.
    fn heard_good(&self, address: u8) -> bool
        ensures { result ≡ heard_good address self.now.heard }
    {
        self.heard
            .is_some_and(|heard| heard.address == address && heard.good)
    }

    // An HS-IN that the devices at this address may hear.
    fn answer_handshake(&self, address: u8, fate: Fate) -> u8
        ensures { result ≡ hs_code address (devices_of self.now) fate }
    {
        match fate {
            Fate::Arrives | Fate::Unheard(_) if self.heard_good(address) => SUCCESS,
            Fate::Arrives | Fate::Unheard(_) | Fate::Stall => STALL,
            Fate::Lost(code) => code,
            Fate::Nak => NAK,
        }
    }

    // HS-IN: 14 where no device has the address. Nothing on a device changes.
    #[tactic(auto, unfolding(port::specs::Reactions::at_address))]
    pub fn handshake(&self, address: u8, fate: Fate) -> u8
        ensures code { result ≡ (hs_outcome address fate (devices_of self.now)).code }
        ensures same { devices_of self.now ≡ (hs_outcome address fate (devices_of self.now)).devices }
    {
        if !self.lives(address) {
            return NO_ANSWER;
        }
        self.answer_handshake(address, fate)
    }
}
