// A script, read a byte at a time. Words are parted by spaces, tabs and carriage returns, and `#`
// begins a comment, which the line's end ends.
ghost use Rattle.std.specs.Prelude.{◌≡◌};
ghost use Rattle.script.specs.Readers.{parted, ended, commented, with_letter, reader_with};

use crate::line::Line;
use words::Word;

#[derive(Clone, Copy)]
pub struct Reader {
    pub word: Word,
    pub line: Line,
    pub is_comment: bool,
    pub is_ended: bool,
}

impl Reader {
    pub const START: Reader = Reader {
        word: Word::START,
        line: Line::START,
        is_comment: false,
        is_ended: false,
    };

    // The word has ended, if there is one.
    fn parted(self) -> Reader
        ensures { result ≡ parted self }
    {
        if self.word.length == 0 {
            self
        } else {
            Reader {
                word: Word::START,
                line: self.line.with(self.word),
                ..self
            }
        }
    }

    fn with_letter(self, byte: u8) -> Reader
        ensures { result ≡ with_letter self byte }
    {
        Reader {
            word: self.word.with(byte),
            ..self
        }
    }

    fn commented(self) -> Reader
        ensures { result ≡ commented self }
    {
        Reader {
            is_comment: true,
            ..self.parted()
        }
    }

    fn ended(self) -> Reader
        ensures { result ≡ ended self }
    {
        Reader {
            is_ended: true,
            ..self.parted()
        }
    }

    // The reader after one more byte.
    pub fn with(self, byte: u8) -> Reader
        ensures { result ≡ reader_with self byte }
    {
        match byte {
            b'\n' => self.ended(),
            _ if self.is_comment => self,
            b'#' => self.commented(),
            b' ' | b'\t' | b'\r' => self.parted(),
            _ => self.with_letter(byte),
        }
    }
}
