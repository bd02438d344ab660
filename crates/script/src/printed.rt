// What is wrong with a line, in words.
ghost use Rattle.std.specs.Prelude.{◌≡◌, Some};
ghost use Rattle.script.specs.Printed.{what_text, shown};

use crate::line::{Fault, What};
use std::fmt;

impl fmt::Display for What {
    ghost output = { λ w. Some (what_text w) };

    fn fmt<W: fmt::Write>(&self, f: &mut fmt::Formatter<W>) -> fmt::Result {
        f.write_str(match self {
            What::NoCall => "no call has this name",
            What::NoNumber =>
                "no number; a number is 16 lower-case hex digits or a decimal such as -9.81",
            What::TooLong => "more than 15 digits; write such a number in 16 hex digits",
            What::TooFar => "a power of ten beyond 22; write such a number in 16 hex digits",
            What::NoSwitch => "no switch; a switch is 0 or 1",
            What::TooMany => "one word too many",
            What::Missing => "missing",
        })
    }
}

// What cannot be printed is a question mark.
fn shown(byte: u8) -> u8
    ensures { result ≡ shown byte }
{
    if byte.is_ascii_graphic() { byte } else { b'?' }
}

// The first bytes of a word, as `Word` packs them.
#[derive(Clone, Copy)]
struct Packed(u64);

impl fmt::Display for Packed {
    fn fmt<W: fmt::Write>(&self, f: &mut fmt::Formatter<W>) -> fmt::Result {
        let bytes = self.0.to_be_bytes();
        for byte in bytes.iter().skip_while(|byte| **byte == 0).skip(1) {
            f.write_char(char::from(shown(*byte)))?;
        }
        Ok(())
    }
}

// A word of more than seven bytes is cut.
impl fmt::Display for Fault {
    fn fmt<W: fmt::Write>(&self, f: &mut fmt::Formatter<W>) -> fmt::Result {
        let word = self.word;
        let what = self.what;
        write!(f, "word {word}")?;
        if self.length > 0 {
            let text = Packed(self.text);
            let cut = if self.length > 7 { ".." } else { "" };
            write!(f, " (`{text}{cut}`)")?;
        }
        write!(f, ": {what}")
    }
}
