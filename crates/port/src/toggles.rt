// The data toggle: DATA0 or DATA1, the bit by which a receiver tells a new packet from one that is sent again.
ghost use Rattle.std.specs.Prelude.{◌≡◌};
ghost use Rattle.port.specs.Toggles.{bit, flip, toggle_of};

#[derive(Clone, Copy, Debug, PartialEq, Eq)]
pub enum Toggle {
    Data0,
    Data1,
}

impl Toggle {
    pub fn flipped(self) -> Toggle
        ensures { result ≡ flip self }
    {
        match self {
            Toggle::Data0 => Toggle::Data1,
            Toggle::Data1 => Toggle::Data0,
        }
    }
}

// 0 for DATA0, 1 for DATA1.
impl From<Toggle> for u8 {
    ghost from_gives = { λ toggle number. number ≡ bit toggle };

    fn from(toggle: Toggle) -> u8 {
        match toggle {
            Toggle::Data0 => 0,
            Toggle::Data1 => 1,
        }
    }
}

// DATA0 for 0, DATA1 for every other number.
impl From<u8> for Toggle {
    ghost from_gives = { λ number toggle. toggle ≡ toggle_of number };

    fn from(number: u8) -> Toggle {
        if number == 0 {
            Toggle::Data0
        } else {
            Toggle::Data1
        }
    }
}
