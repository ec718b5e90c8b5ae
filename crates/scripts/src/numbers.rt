// Numbers in decimal, without a sign and without leading zeros.
ghost use Rattle.std.specs.Prelude.{◌≡◌, ◌<◌, ◌^◌};
ghost use Rattle.std.specs.Fmt.{decimal};
ghost use Rattle.scripts.specs.Words.{Reads};

use crate::errors::LineError;

// A number below 65,536.
pub(crate) fn short(word: &str) -> Result<u16, LineError>
    ensures { Reads decimal (λ n. n < 2 ^ 16) word.now result }
{
    match word.as_bytes() {
        [b'+', ..] | [b'0', _, ..] => Err(LineError::NotUnderstood),
        _ => word.parse().map_err(|_| LineError::NotUnderstood),
    }
}

// A number below 256.
pub(crate) fn byte(word: &str) -> Result<u8, LineError>
    ensures { Reads decimal (λ n. n < 2 ^ 8) word.now result }
{
    u8::try_from(short(word)?).map_err(|_| LineError::NotUnderstood)
}
