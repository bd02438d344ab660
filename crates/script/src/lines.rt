// The lines of a script; the last ends where the input does.
ghost use Rattle.script.specs.ReadLines.{YieldsLine};

use crate::line::Line;
use crate::reader::Reader;
use std::io;
use std::io::Read;
use streams::Input;

#[derive(Drop)]
pub struct Lines<R: Read> {
    input: Input<R>,
    is_over: bool,
}

impl<R: Read> From<R> for Lines<R> {
    ghost use Rattle.std.specs.Prelude.{◌≡◌, false};

    ghost from_gives = { λ reader l. (l.input ≡ R.remaining reader) × (l.is_over ≡ false) };

    fn from(reader: R) -> Lines<R> {
        Lines {
            input: Input::from(reader),
            is_over: false,
        }
    }
}

impl<R: Read + Drop> Iterator for Lines<R> {
    type Item = io::Result<Line>;

    ghost next_gives = { λ s r t. YieldsLine s.input r t.input };

    // A proved loop has to end, and nothing says that a line does: no run has as many bytes as a
    // number can count.
    fn next(&mut self) -> Option<io::Result<Line>> {
        if self.is_over {
            return None;
        }
        let mut reader = Reader::START;
        for _turn in 0..u64::MAX {
            match self.input.next() {
                Some(Ok(byte)) => reader = reader.with(byte),
                Some(Err(error)) => return Some(Err(error)),
                None => {
                    self.is_over = true;
                    return Some(Ok(reader.with(b'\n').line));
                }
            }
            if reader.is_ended {
                return Some(Ok(reader.line));
            }
        }
        None
    }
}
