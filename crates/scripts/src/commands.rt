// What a line of a script asks for.
ghost use Rattle.std.specs.Prelude.{◌≡◌};

use crate::buses::Bus;
use bench::EndpointPlan;
use service::Call;

#[derive(Debug, PartialEq, Eq, Drop)]
pub enum Command {
    // an empty line, or a comment: a line that begins with `#`
    Nothing,
    // `new`: start over with a fresh bench chip and an unused host
    New,
    // `bus BUS`: what the host drives
    Drive(Bus),
    // `cell ADDRESS NUMBER DIRECTION TOGGLE LIFE CAPACITY`: one endpoint more on the bus
    Endpoint(EndpointPlan),
    // `wait ADDRESS NUMBER BYTES`: one packet more that waits at an IN endpoint
    Packet {
        address: u8,
        number: u8,
        bytes: Vec<u8>,
    },
    // `fates BYTES`: more fates
    Fates(Vec<u8>),
    // `put REGISTER VALUE`: one put
    Put {
        register: u8,
        value: u8,
    },
    // `get REGISTER`: one get
    Get {
        register: u8,
    },
    // `frame BYTES`: one exchange of bytes on the wire
    Frame(Vec<u8>),
    // one call of the host
    Call(Call),
    // `show`: print the endpoints, and how many fates are left
    Show,
}
