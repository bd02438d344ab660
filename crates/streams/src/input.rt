// The bytes of a reader one by one, read a buffer at a time.
ghost use Rattle.std.specs.Prelude.{◌≡◌};

use std::io;
use std::io::Read;
use std::marker::Model;

const ROOM: usize = 65536;

// In a clause it is the bytes that are still to be taken, where those of the reader are known.
#[derive(Drop)]
pub struct Input<R: Read> {
    reader: R,
    bytes: [u8; ROOM],
    at: usize,
    end: usize,
}

impl<R: Read> Model for Input<R> {
    ghost use Rattle.std.specs.Prelude.{ℕ, List, ◌≤◌, Option, slice_range};
    ghost use Rattle.std.specs.Io.KnownBytes.{prepend_known};

    ghost Value = { Option (List ℕ) };

    ghost view = { λ i. prepend_known (slice_range i.bytes i.at i.end) (R.remaining i.reader) };

    ghost invariant = { λ i. (i.at ≤ i.end) × (i.end ≤ 65536) };
}

impl<R: Read> From<R> for Input<R> {
    ghost from_gives = { λ reader i. i ≡ R.remaining reader };

    fn from(reader: R) -> Input<R> {
        Input {
            reader,
            bytes: [0; ROOM],
            at: 0,
            end: 0,
        }
    }
}

impl<R: Read + Drop> Iterator for Input<R> {
    ghost use Rattle.streams.specs.Taken.{TakesNext};

    type Item = io::Result<u8>;

    ghost next_gives = { TakesNext };

    fn next(&mut self) -> Option<io::Result<u8>> {
        if self.at == self.end {
            match self.reader.read(&mut self.bytes) {
                Ok(0) => return None,
                Ok(count) => {
                    self.at = 0;
                    self.end = count;
                }
                Err(error) => return Some(Err(error)),
            }
        }
        let byte = self.bytes[self.at];
        self.at += 1;
        Some(Ok(byte))
    }
}
