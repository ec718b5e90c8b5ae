// The registers that a command byte can name, and where the register of a frame goes after each data byte.
ghost use Rattle.std.specs.Prelude.{◌≡◌, ◌<◌, ◌≤◌, MatchOption};
ghost use Rattle.frames.specs.Registers.{stays_at, next_register};
ghost use Rattle.frames.specs.Format.{command_register};

// the highest register that a command byte can name
pub const REGISTER_MOST: u8 = 31;

// Whether all data bytes of a frame are accesses of one register. At any other register each data byte is an access one register
// further than the one before it.
pub fn stays(register: u8) -> bool
    ensures { result ≡ stays_at register }
{
    register <= 4 || register == 20 || register == 31
}

// A register that a command byte can name.
#[derive(Clone, Copy)]
pub(crate) struct Register {
    pub(crate) number: u8,
    ghost named: { number ≤ 31 },
}

impl Register {
    // The register of this number; none above R31.
    pub(crate) fn new(number: u8) -> Option<Register>
        ensures { MatchOption result (31 < number) (λ register. register.number ≡ number) }
    {
        if number > REGISTER_MOST {
            return None;
        }
        Some(Register { number })
    }

    // The register that a command byte names.
    pub(crate) fn named_by(command: u8) -> Register
        ensures { result.number ≡ command_register command }
    {
        Register {
            number: command / 8,
        }
    }

    // The register of the next data byte.
    pub(crate) fn next(self) -> Register
        ensures { result.number ≡ next_register self.number }
    {
        if stays(self.number) {
            return self;
        }
        Register {
            number: self.number + 1,
        }
    }
}
