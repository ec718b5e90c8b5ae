// The chip record and the devices, and what a legal transaction under a given fate does to both. Where fates come from plays no
// part here.
ghost use Rattle.std.specs.Prelude.{◌≡◌};
ghost use Rattle.port.specs.Fates.{Real};
ghost use Rattle.port.specs.Launches.{held};
ghost use Rattle.port.specs.declared.transactions.Transaction.TheVariants.{Setup, In, Out, HsIn};
ghost use Rattle.bench.specs.Chips.{Transacted};
ghost use Rattle.bench.specs.Drawn.{Real-prop};
ghost use Rattle.parts.specs.Records.{chip_of};
ghost use Rattle.devices.specs.Devices.{devices_of};

use devices::Devices;
use parts::ChipRecord;
use port::{Fate, Transaction};

// A fate that was drawn from a queue: its code, if it has one, is one that the chip can show.
#[derive(Clone, Copy)]
pub(crate) struct DrawnFate {
    pub(crate) fate: Fate,
    ghost real: { Real fate } by { Real-prop fate },
}

#[derive(Drop)]
pub(crate) struct Board {
    pub(crate) chip: ChipRecord,
    pub(crate) devices: Devices,
}

impl Board {
    #[tactic(auto, using(port::proofs::Codes::setup_code_small))]
    fn setup(&mut self, fate: DrawnFate)
        ensures { Transacted Setup fate.fate self.old self.new }
    {
        self.chip.make_request();
        let code = self
            .devices
            .setup(self.chip.address(), fate.fate, self.chip.setup());
        self.chip.end_plain(code);
    }

    fn input(&mut self, number: u8, fate: DrawnFate)
        ensures { Transacted (In number) fate.fate self.old self.new }
    {
        let address = self.chip.address();
        let toggle = self.chip.receive_toggle();
        let code = self.devices.input(address, number, fate.fate, toggle, &mut self.chip.incoming);
        self.chip.end_in(code);
    }

    fn out(&mut self, number: u8, fate: DrawnFate)
        ensures { Transacted (Out number) fate.fate self.old self.new }
    {
        self.chip.make_packet();
        let toggle = self.chip.send_toggle();
        let code = self.devices.out(
            self.chip.address(),
            number,
            fate.fate,
            toggle,
            self.chip.sending(),
        );
        self.chip.end_out(code);
    }

    #[tactic(auto, using(port::proofs::Codes::hs_code_small))]
    fn handshake(&mut self, fate: DrawnFate)
        ensures { Transacted HsIn fate.fate self.old self.new }
    {
        let code = self.devices.handshake(self.chip.address(), fate.fate);
        self.chip.end_plain(code);
    }

    // A legal transaction under a fate.
    pub(crate) fn transact(&mut self, transaction: Transaction, fate: DrawnFate)
        ensures { Transacted transaction fate.fate self.old self.new }
    {
        match transaction {
            Transaction::Setup => self.setup(fate),
            Transaction::In(number) => self.input(number, fate),
            Transaction::Out(number) => self.out(number, fate),
            Transaction::HsIn => self.handshake(fate),
        }
    }

    // Whether the transaction is one that a received packet holds up.
    pub(crate) fn holds(&self, transaction: Transaction) -> bool
        ensures { result ≡ held transaction (chip_of self.now.chip) }
    {
        matches!(transaction, Transaction::In(_)) && self.chip.holds_packet()
    }
}
