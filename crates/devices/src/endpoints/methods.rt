// How an endpoint reacts to a transaction that reaches it under a given fate.
ghost use Rattle.std.specs.Prelude.{◌≡◌, ◌≤◌, true, [], ◌∷◌, ◌++◌, length, IfOk, if◌then◌else◌, MatchResult, ◌==◌, nat_eq};
ghost use Rattle.port.specs.Endpoints.{stands_at, cleared, halt, handed};
ghost use Rattle.port.specs.Reactions.{out_reaches, out_met, in_reaches, in_met, first};
ghost use Rattle.parts.specs.Records.{inbox_bytes};
ghost use Rattle.devices.specs.Arrivals.{brings};
ghost use Rattle.devices.specs.Endpoints.{endpoint_of};
ghost use Rattle.devices.specs.Setups.{planned, more_waiting};

use super::DeviceEndpoint;
use crate::packets::Packet;
use crate::plans::EndpointPlan;
use crate::spots::Spot;
use parts::{Inbox, Room};
use port::results::{NAK, STALL, SUCCESS, WRONG_TOGGLE};
use port::{Fate, Toggle};
use std::alloc::{AllocError, Global};
use std::collections::VecDeque;

impl DeviceEndpoint {
    pub(crate) fn new(alloc: Global, plan: EndpointPlan) -> Result<DeviceEndpoint, AllocError>
        ensures { IfOk result (λ e. endpoint_of e ≡ planned plan) }
    {
        let taken = Room::new(alloc, usize::from(plan.capacity))?;
        Ok(DeviceEndpoint {
            spot: plan.spot(),
            toggle: Toggle::from(plan.toggle),
            halted: plan.halted,
            taken,
            waiting: VecDeque::new(alloc),
        })
    }

    // One packet more waits.
    pub(crate) fn add_packet(&mut self, bytes: &[u8]) -> Result<(), AllocError>
        requires { length bytes.now ≤ 64 }
        ensures { MatchResult result (λ _. endpoint_of self.new ≡ more_waiting bytes.now (endpoint_of self.old)) (λ _. endpoint_of self.new ≡ endpoint_of self.old) }
    {
        let packet = Packet::new(*self.waiting.allocator(), bytes)?;
        self.waiting.push_back(packet)?;
        Ok(())
    }

    pub(crate) fn has_address(&self, address: u8) -> bool
        ensures { result ≡ ((endpoint_of self.now).address == address) }
    {
        self.spot.address == address
    }

    pub(crate) fn stands_at(&self, spot: Spot) -> bool
        ensures { result ≡ stands_at spot.address spot.number spot.direction (endpoint_of self.now) }
    {
        self.spot == spot
    }

    // What the clear request does.
    pub(crate) fn clear(&mut self)
        ensures { endpoint_of self.new ≡ cleared (endpoint_of self.old) }
    {
        self.toggle = Toggle::Data0;
        self.halted = false;
    }

    // A packet that reached the endpoint: taken if it is new and fits.
    fn take(&mut self, toggle: Toggle, bytes: &[u8]) -> u8
        ensures code { result ≡ (out_reaches toggle bytes.now (endpoint_of self.old)).code }
        ensures after { endpoint_of self.new ≡ (out_reaches toggle bytes.now (endpoint_of self.old)).endpoint }
    {
        if self.halted {
            return STALL;
        }
        if toggle != self.toggle {
            return SUCCESS;
        }
        if !self.taken.append(bytes) {
            return NAK;
        }
        self.toggle = self.toggle.flipped();
        SUCCESS
    }

    pub(crate) fn out(&mut self, fate: Fate, toggle: Toggle, bytes: &[u8]) -> u8
        ensures code { result ≡ (out_met fate toggle bytes.now (endpoint_of self.old)).code }
        ensures after { endpoint_of self.new ≡ (out_met fate toggle bytes.now (endpoint_of self.old)).endpoint }
    {
        match fate {
            Fate::Arrives => self.take(toggle, bytes),
            Fate::Lost(code) => code,
            Fate::Unheard(code) => {
                let _ = self.take(toggle, bytes);
                code
            }
            Fate::Nak => NAK,
            Fate::Stall => {
                self.halted = true;
                STALL
            }
        }
    }

    // The acknowledgement of the first packet was heard: the endpoint goes on to the next.
    fn go_on(&mut self)
        ensures { endpoint_of self.new ≡ handed (endpoint_of self.old) }
    {
        let _ = self.waiting.pop_front();
        self.toggle = self.toggle.flipped();
    }

    // The host's answer to an IN that reached the endpoint: the first packet is received if the toggles agree.
    fn offer(&self, toggle: Toggle, into: &mut Inbox) -> u8
        ensures code { result ≡ (in_reaches true toggle (endpoint_of self.now)).code }
        ensures bytes { inbox_bytes into.new ≡ (if nat_eq result 0 then first (endpoint_of self.now).waiting else inbox_bytes into.old) }
    {
        if self.halted {
            return STALL;
        }
        let Some(packet) = self.waiting.front() else {
            return NAK;
        };
        if toggle != self.toggle {
            return WRONG_TOGGLE;
        }
        into.fill(packet.as_slice());
        SUCCESS
    }

    // An IN that reached the endpoint; `heard` says whether the host's acknowledgement reaches it too.
    fn hand_over(&mut self, heard: bool, toggle: Toggle, into: &mut Inbox) -> u8
        ensures code { result ≡ (in_reaches heard toggle (endpoint_of self.old)).code }
        ensures after { endpoint_of self.new ≡ (in_reaches heard toggle (endpoint_of self.old)).endpoint }
        ensures bytes { inbox_bytes into.new ≡ (if nat_eq result 0 then first (endpoint_of self.old).waiting else inbox_bytes into.old) }
    {
        let code = self.offer(toggle, into);
        if heard && matches!(code, SUCCESS | WRONG_TOGGLE) {
            self.go_on();
        }
        code
    }

    pub(crate) fn input(&mut self, fate: Fate, toggle: Toggle, into: &mut Inbox) -> u8
        ensures code { result ≡ (in_met fate toggle (endpoint_of self.old)).code }
        ensures after { endpoint_of self.new ≡ (in_met fate toggle (endpoint_of self.old)).endpoint }
        ensures bytes { inbox_bytes into.new ≡ (if brings fate result then first (endpoint_of self.old).waiting else inbox_bytes into.old) }
    {
        match fate {
            Fate::Arrives => self.hand_over(true, toggle, into),
            Fate::Lost(code) => code,
            Fate::Unheard(_) => self.hand_over(false, toggle, into),
            Fate::Nak => NAK,
            Fate::Stall => {
                self.halted = true;
                STALL
            }
        }
    }
}
