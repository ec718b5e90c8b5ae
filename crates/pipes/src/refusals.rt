// Why a call declined, or stopped before it was through.
ghost use Rattle.std.specs.Prelude.{◌≡◌};
ghost use Rattle.pipes.specs.Refusals.{refusal_number};

// Each has the number under which it is known.
#[derive(Clone, Copy, Debug, PartialEq, Eq)]
pub enum Refusal {
    // the pipe number is above 7
    NoSuchPipe = 1,
    // open: the pipe is there
    PipeThere = 2,
    // any other call: the pipe is absent
    PipeAbsent = 3,
    // the address is not 1 to 127
    BadAddress = 4,
    // the endpoint is not 1 to 15
    BadEndpoint = 5,
    // the packet size is not 8, 16, 32 or 64
    BadSize = 6,
    // the NAK limit is 0
    NoLimit = 7,
    // another pipe has this address, endpoint and direction
    EndpointTaken = 8,
    // a send on an IN pipe, or a fetch on an OUT pipe
    WrongDirection = 9,
    // a message or buffer of no bytes, or of more than 1,024; a buffer that does not hold a whole number of packets
    BadLength = 10,
    // the pipe is doubtful: recover it first
    PipeDoubtful = 11,
    // the pipe is halted: recover it first
    PipeHalted = 12,
    // recover: the pipe is in step
    PipeInStep = 13,
    // the device was busy as often as the limit says
    NakLimit = 14,
    // the third try without an answer
    ThirdMiss = 15,
    // the device answered STALL
    Stalled = 16,
    // a fetch: the device sent a packet that is longer than the packet size
    PacketTooLong = 17,
}

impl Refusal {
    // The number under which it is known.
    pub fn number(self) -> u8
        ensures { result ≡ refusal_number self }
    {
        self as u8
    }
}
