// Text for the standard output, gathered in a buffer of fixed memory.
ghost use Rattle.std.specs.Prelude.{◌≤◌};

use limits::Answer;
use std::io;
use std::io::{Stdout, Write};

const ROOM: usize = 65536;

#[derive(Drop)]
pub struct Output {
    stdout: Stdout,
    bytes: [u8; ROOM],
    len: usize,
    ghost within: { len ≤ 65536 },
}

impl From<Stdout> for Output {
    fn from(stdout: Stdout) -> Output {
        Output {
            stdout,
            bytes: [0; ROOM],
            len: 0,
        }
    }
}

impl Write for Output {
    fn write(&mut self, text: &[u8]) -> io::Result<usize> {
        if self.len == ROOM {
            self.flush()?;
        }
        let count = text.len().min(ROOM - self.len);
        let end = self.len + count;
        self.bytes[self.len..end].copy_from_slice(&text[..count]);
        self.len = end;
        Ok(count)
    }

    // What cannot be written out is not left to be written again.
    fn flush(&mut self) -> io::Result<()> {
        let len = self.len;
        self.len = 0;
        self.stdout.write_all(&self.bytes[..len])
    }
}

impl Output {
    // The bits of each number. A NaN has one text.
    pub fn numbers(&mut self, numbers: &[f64]) -> io::Result<()> {
        for x in numbers {
            let bits = floats::to_bits(*x);
            write!(self, " {bits:016x}")?;
        }
        Ok(())
    }

    pub fn flag(&mut self, flag: bool) -> io::Result<()> {
        let digit = u8::from(flag);
        write!(self, " {digit}")
    }

    // The answers of a call, which end its line.
    pub fn answers(&mut self, answers: &[Answer]) -> io::Result<()> {
        for answer in answers {
            let number = answer.number();
            write!(self, " {number}")?;
        }
        writeln!(self)
    }
}
