// The lines of the standard input.
ghost use Rattle.std.specs.Prelude.{◌<◌, ◌≤◌, IfOk};

use crate::play::{play_acc, play_gyr, play_mag};
use std::io;
use std::io::{Read, Stdin, Stdout};

const COUNT_LIMIT: u64 = 1_000_000_000_000;

// Fills the buffer as far as the standard input goes, and tells how far.
pub fn read_full(mut stdin: Stdin, text: &mut [u8; 4096]) -> io::Result<usize>
    ensures { IfOk result (λ n. n ≤ 4096) }
{
    let mut at = 0usize;
    for _ in 0..4096u32 {
        let count = stdin.read(&mut text[at..])?;
        if count == 0 {
            return Ok(at);
        }
        at += count;
    }
    Ok(at)
}

// What was read of a line: the last eight bytes of its name, packed, and its count.
#[derive(Clone, Copy, Default)]
struct Line {
    name: u64,
    count: u64,
}

impl Line {
    fn named(self, byte: u8) -> Line {
        Line {
            name: (self.name << 8) | u64::from(byte),
            ..self
        }
    }

    // A count at the limit takes no further digit.
    fn counted(self, digit: u8) -> Line
        requires { digit < 10 }
    {
        if self.count < COUNT_LIMIT {
            Line {
                count: self.count * 10 + u64::from(digit),
                ..self
            }
        } else {
            self
        }
    }

    fn play(self, stdout: Stdout) -> io::Result<()> {
        match &self.name.to_be_bytes() {
            b"\0\0\0\0\0gyr" => play_gyr(stdout, self.count),
            b"\0\0\0\0\0acc" => play_acc(stdout, self.count),
            b"\0\0\0\0\0mag" => play_mag(stdout, self.count),
            _ => Ok(()),
        }
    }
}

// The last line need not end in a newline.
pub fn play_lines(stdout: Stdout, text: &[u8]) -> io::Result<()> {
    let mut line = Line::default();
    for byte in text {
        match *byte {
            b'\n' => {
                line.play(stdout)?;
                line = Line::default();
            }
            b' ' => {}
            b'0'..=b'9' => line = line.counted(*byte - b'0'),
            _ => line = line.named(*byte),
        }
    }
    line.play(stdout)
}
