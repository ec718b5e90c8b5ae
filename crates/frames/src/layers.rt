// A wire over a framed port over a wire is a wire again.
ghost use Rattle.std.specs.Prelude.{◌≡◌};
ghost use Rattle.frames.specs.declared.duplexes.Duplex.TheVariants.{Full};
ghost use Rattle.frames.specs.Exchanges.{exchanged, after_exchange};

use crate::duplexes::Duplex;
use crate::framed_ports::FramedPort;
use crate::port_wires::PortWire;
use crate::wires::Wire;

// Exchanges bytes over a full duplex wire that is itself made of a framed port over the given wire, and hands that back.
pub fn exchange_layered<W: Wire>(wire: W, bytes: &mut [u8]) -> W
    ensures answers { bytes.new ≡ exchanged Full bytes.old (W.meaning wire) }
    ensures after { W.meaning result ≡ after_exchange bytes.old (W.meaning wire) }
{
    let mut outer = PortWire::new(FramedPort::new(wire), Duplex::Full);
    outer.exchange(bytes);
    outer.into_port().into_wire()
}
