// The bench chip itself: a port in memory.
ghost use Rattle.std.specs.Prelude.{◌≡◌, true, map, length, IfOk};
ghost use Rattle.port.specs.Launches.{launch, started, carried, refused};
ghost use Rattle.port.specs.Bus.{next_fate};
ghost use Rattle.devices.specs.Endpoints.{endpoint_of};
ghost use Rattle.devices.specs.Setups.{planned, more_endpoints, packet_fits, packet_place, more_packets};
ghost use Rattle.bench.specs.Chips.{bus_of, empty_bus};
ghost use Rattle.bench.specs.Setups.{SetsUp, plan_fits, more_fates, with_devices};

use crate::boards::{Board, DrawnFate};
use devices::{DeviceEndpoint, Devices, EndpointPlan, SetupError};
use parts::{ChipRecord, FateQueue};
use port::registers::{HCTL, HIRQ, HRSL, HXFR, PERADDR, RCVBC, RCVFIFO, SNDBC, SNDFIFO, SUDFIFO};
use port::results::BAD_REQUEST;
use port::{Fate, Port, Transaction};
use std::alloc::{AllocError, Global};

#[derive(Drop)]
pub struct BenchChip {
    board: Board,
    fates: FateQueue,
}

impl BenchChip {
    // A fresh chip on a bus without devices, and no fates.
    pub fn new(alloc: Global) -> Result<BenchChip, AllocError>
        ensures { IfOk result (λ b. bus_of b ≡ empty_bus) }
    {
        let chip = ChipRecord::new(alloc)?;
        let board = Board {
            chip,
            devices: Devices::new(alloc),
        };
        Ok(BenchChip {
            board,
            fates: FateQueue::new(alloc),
        })
    }

    // One endpoint more on the bus.
    pub fn add_endpoint(&mut self, plan: EndpointPlan) -> Result<(), SetupError>
        ensures { SetsUp (plan_fits plan (bus_of self.old)) (with_devices (bus_of self.old) (more_endpoints (planned plan) (bus_of self.old).devices)) self.old result self.new }
    {
        self.board.devices.add_endpoint(plan)
    }

    // One packet more that waits at an IN endpoint.
    pub fn add_packet(&mut self, address: u8, number: u8, bytes: &[u8]) -> Result<(), SetupError>
        ensures { SetsUp (packet_fits address number bytes.now (bus_of self.old).devices) (with_devices (bus_of self.old) (more_packets (packet_place address number (bus_of self.old).devices) bytes.now (bus_of self.old).devices)) self.old result self.new }
    {
        self.board.devices.add_packet(address, number, bytes)
    }

    // More fates, in order, after those that are there. Any byte is a fate.
    pub fn add_fates(&mut self, bytes: &[u8]) -> Result<(), SetupError>
        ensures { SetsUp true (more_fates bytes.now (bus_of self.old)) self.old result self.new }
    {
        self.fates.add(bytes)?;
        Ok(())
    }

    // The endpoints, in the order in which they were set up.
    pub fn endpoints(&self) -> &[DeviceEndpoint]
        ensures { map endpoint_of result.now ≡ (bus_of self.now).devices.endpoints }
    {
        self.board.devices.endpoints()
    }

    // How many fates are left.
    pub fn fates_left(&self) -> usize
        ensures { result ≡ length (bus_of self.now).fates }
    {
        self.fates.len()
    }

    // The fate that the next legal launch meets.
    pub fn next_fate(&self) -> Fate
        ensures { result ≡ next_fate (bus_of self.now).fates }
    {
        self.fates.peek()
    }

    // A put to R30.
    #[tactic(auto, unfolding(port::specs::Launches::launch))]
    fn launch(&mut self, value: u8)
        ensures { bus_of self.new ≡ launch value (bus_of self.old) }
    {
        match Transaction::try_from(value) {
            Ok(transaction) => self.start(transaction),
            Err(_) => self.refuse(),
        }
    }

    // A legal value: the transaction, unless a received packet holds it up.
    fn start(&mut self, transaction: Transaction)
        ensures { bus_of self.new ≡ started transaction (bus_of self.old) }
    {
        if self.board.holds(transaction) {
            self.refuse();
        } else {
            self.carry(transaction);
        }
    }

    // A legal launch takes one fate.
    #[tactic(auto, using(port::proofs::Codes::next_real), unfolding(port::specs::Launches::carried))]
    fn carry(&mut self, transaction: Transaction)
        ensures { bus_of self.new ≡ carried transaction (bus_of self.old) }
    {
        let fate = DrawnFate {
            fate: self.fates.take(),
        };
        self.board.transact(transaction, fate);
    }

    // An illegal one takes none.
    #[tactic(auto, unfolding(port::specs::Launches::refused))]
    fn refuse(&mut self)
        ensures { bus_of self.new ≡ refused (bus_of self.old) }
    {
        self.board.chip.end_plain(BAD_REQUEST);
    }
}

impl Port for BenchChip {
    ghost meaning = { bus_of };

    #[tactic(auto, unfolding(port::specs::Accesses::after_put))]
    fn put(&mut self, register: u8, value: u8) {
        match register {
            SNDFIFO => self.board.chip.load_sending(value),
            SUDFIFO => self.board.chip.load_setup(value),
            SNDBC => self.board.chip.set_count(value),
            HIRQ => self.board.chip.clear_flags(value),
            PERADDR => self.board.chip.set_address(value),
            HCTL => self.board.chip.set_toggles(value),
            HXFR => self.launch(value),
            _ => {}
        }
    }

    #[tactic(auto, unfolding(port::specs::Accesses::got, port::specs::Accesses::after_get))]
    fn get(&mut self, register: u8) -> u8 {
        match register {
            RCVFIFO => self.board.chip.take_incoming(),
            RCVBC => self.board.chip.left(),
            HIRQ => self.board.chip.flags(),
            PERADDR => self.board.chip.address(),
            HRSL => self.board.chip.status(),
            _ => 0,
        }
    }
}
