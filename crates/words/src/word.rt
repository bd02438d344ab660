// A word, read a byte at a time.
ghost use Rattle.std.specs.Prelude.{◌≡◌};
ghost use Rattle.words.specs.Decimals.{digit};
ghost use Rattle.words.specs.Words.{packed, spelled, word_with, short, word_number};

use crate::decimal::{Decimal, NoNumber, count, digit};

// Its first seven bytes, packed behind a 1; how many bytes it has; the bits that it spells in base
// 16, if it does; and what it is as a decimal.
#[derive(Clone, Copy)]
pub struct Word {
    pub text: u64,
    pub length: u64,
    pub bits: Option<u64>,
    pub decimal: Decimal,
}

fn packed(text: u64, byte: u8) -> u64
    ensures { result ≡ packed text byte }
{
    if text < 0x0100_0000_0000_0000 {
        text * 256 + u64::from(byte)
    } else {
        text
    }
}

// The bits with one more digit behind them, as long as sixteen digits hold them.
fn spelled(bits: Option<u64>, byte: u8) -> Option<u64>
    ensures { result ≡ spelled bits (digit byte) }
{
    let bits = bits?;
    let digit = digit(byte)?;
    if bits < 0x1000_0000_0000_0000 {
        Some(bits * 16 + u64::from(digit))
    } else {
        Some(bits)
    }
}

impl Word {
    pub const START: Word = Word {
        text: 1,
        length: 0,
        bits: Some(0),
        decimal: Decimal::START,
    };

    // The word with one more byte.
    pub fn with(self, byte: u8) -> Word
        ensures { result ≡ word_with self byte }
    {
        Word {
            text: packed(self.text, byte),
            length: count(self.length),
            bits: spelled(self.bits, byte),
            decimal: self.decimal.with(byte),
        }
    }

    // The text of a word of at most seven bytes.
    pub fn short(self) -> Option<u64>
        ensures { result ≡ short self }
    {
        if self.length <= 7 {
            Some(self.text)
        } else {
            None
        }
    }

    // Sixteen digits of base 16 are the bits of a number; anything else may be a decimal.
    pub fn number(self) -> Result<f64, NoNumber>
        ensures { result ≡ word_number self }
    {
        match self.bits {
            Some(bits) if self.length == 16 => Ok(floats::from_bits(bits)),
            _ => self.decimal.number(),
        }
    }
}
