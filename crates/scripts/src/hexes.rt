// Bytes in lower-case hexadecimal, `-` for none: as they are printed, and as they are read.
ghost use Rattle.std.specs.Prelude.{◌≡◌, ◌≢◌, ℕ, ◌<◌, false, [], ◌∷◌, Some, MatchOption};
ghost use Rattle.std.specs.Fmt.{digit_glyph};
ghost use Rattle.scripts.specs.Words.{hex_pair, hex_text, Reads, AreBytes, written_bytes};

use crate::errors::LineError;
use std::alloc::Global;
use std::fmt;

// Bytes that print in hexadecimal.
#[derive(Clone, Copy)]
pub struct Hex<'a>(pub &'a [u8]);

impl fmt::Display for Hex<'_> {
    ghost output = { λ bytes. Some (hex_text bytes.0.now) };

    fn fmt<W: fmt::Write>(&self, f: &mut fmt::Formatter<W>) -> fmt::Result {
        if self.0.is_empty() {
            return write!(f, "-");
        }
        for &byte in self.0 {
            write!(f, "{byte:02x}")?;
        }
        Ok(())
    }
}

// The value of a digit.
fn digit(glyph: u8) -> Option<u8>
    ensures { MatchOption result ((d : ℕ) → d < 16 → digit_glyph false d ≢ glyph) (λ d. (d < 16) × (digit_glyph false d ≡ glyph)) }
{
    match glyph {
        b'0'..=b'9' => Some(glyph - b'0'),
        b'a'..=b'f' => Some(glyph - b'a' + 10),
        _ => None,
    }
}

// The byte that two digits write.
fn pair(high: u8, low: u8) -> Option<u8>
    ensures { MatchOption result ((b : ℕ) → b < 256 → hex_pair b ≢ high ∷ low ∷ []) (λ b. hex_pair b ≡ high ∷ low ∷ []) }
{
    Some(digit(high)? * 16 + digit(low)?)
}

// The bytes that a word writes.
pub(crate) fn bytes(alloc: Global, word: &str) -> Result<Vec<u8>, LineError>
    ensures { Reads written_bytes AreBytes word.now result }
{
    let mut bytes = Vec::new(alloc);
    if word == "-" {
        return Ok(bytes);
    }
    // an odd number of digits is refused before memory is got for them
    if !word.len().is_multiple_of(2) {
        return Err(LineError::NotUnderstood);
    }
    let mut rest = word.as_bytes();
    // by a pattern that takes two digits off, which leaves an odd one in sight; over `chunks` it takes more proof, and reads no plainer
    while let [high, low, after @ ..] = rest {
        let Some(byte) = pair(*high, *low) else {
            return Err(LineError::NotUnderstood);
        };
        bytes.push(byte)?;
        rest = after;
    }
    if rest.is_empty() && !bytes.is_empty() {
        Ok(bytes)
    } else {
        Err(LineError::NotUnderstood)
    }
}
