// A line of a script, read a word at a time.
ghost use Rattle.std.specs.Prelude.{◌≡◌, ◌<◌};
ghost use Rattle.script.specs.Lines.{what_of, read_at, position, faulty, named, with_value, with_house, with_argument, argued, line_with, is_complete, missing};

use crate::names::{DASH, HOUSE, Name, ONE, ZERO};
use words::{NoNumber, Word};

// What is wrong with a word.
#[derive(Clone, Copy, Debug, PartialEq, Eq)]
pub enum What {
    NoCall,
    NoNumber,
    TooLong,
    TooFar,
    NoSwitch,
    TooMany,
    Missing,
}

impl From<NoNumber> for What {
    ghost from_gives = { λ why what. what ≡ what_of why };

    fn from(why: NoNumber) -> What {
        match why {
            NoNumber::NotANumber => What::NoNumber,
            NoNumber::TooLong => What::TooLong,
            NoNumber::TooFar => What::TooFar,
        }
    }
}

// Which word it is, the line's first being 1, its first bytes as `Word` packs them, and its length.
#[derive(Clone, Copy)]
pub struct Fault {
    pub what: What,
    pub word: usize,
    pub text: u64,
    pub length: u64,
}

// What a word's place in a line asks for.
#[derive(Clone, Copy)]
pub enum Place {
    Number,
    NumberOrDash,
    NumberOrHouse,
    Switch,
}

// What a word behind the name is. A switch is 0 or 1.
#[derive(Clone, Copy)]
pub enum Argument {
    Number(f64),
    Dash,
    House,
}

// The name, and of the words behind it the numbers, with none for a dash. After `house`, and after
// the dash in place of a magnetometer sample, the line is closed.
#[derive(Clone, Copy)]
pub struct Line {
    pub name: Option<Name>,
    pub count: usize,
    pub values: [Option<f64>; 28],
    pub is_house: bool,
    pub is_closed: bool,
    pub fault: Option<Fault>,
}

// The index of a word that a line has room for.
#[derive(Clone, Copy)]
struct Room {
    index: usize,
    ghost is_within: { index < 28 },
}

fn read_at(place: Place, word: Word) -> Result<Argument, What>
    ensures { result ≡ read_at place word }
{
    match (place, word.short()) {
        (Place::NumberOrDash, Some(DASH)) => Ok(Argument::Dash),
        (Place::NumberOrHouse, Some(HOUSE)) => Ok(Argument::House),
        (Place::Switch, Some(ZERO)) => Ok(Argument::Number(0.0)),
        (Place::Switch, Some(ONE)) => Ok(Argument::Number(1.0)),
        (Place::Switch, _) => Err(What::NoSwitch),
        _ => Ok(Argument::Number(word.number()?)),
    }
}

// The place in its line of the word behind the name that comes after `count` others.
fn position(count: usize) -> usize
    ensures { result ≡ position count }
{
    if count < 28 { count + 2 } else { 30 }
}

impl Line {
    pub const START: Line = Line {
        name: None,
        count: 0,
        values: [None; 28],
        is_house: false,
        is_closed: false,
        fault: None,
    };

    fn faulty(self, what: What, position: usize, word: Word) -> Line
        ensures { result ≡ faulty self what position word }
    {
        let fault = Fault {
            what,
            word: position,
            text: word.text,
            length: word.length,
        };
        Line {
            fault: Some(fault),
            ..self
        }
    }

    fn named(self, word: Word) -> Line
        ensures { result ≡ named self word }
    {
        match word.short().and_then(Name::of) {
            Some(name) => Line {
                name: Some(name),
                ..self
            },
            None => self.faulty(What::NoCall, 1, word),
        }
    }

    fn with_value(self, room: Room, value: Option<f64>) -> Line
        ensures { result ≡ with_value self room.index value }
    {
        let mut next = self;
        next.values[room.index] = value;
        next.count = room.index + 1;
        next
    }

    fn with_house(self, room: Room) -> Line
        ensures { result ≡ with_house self room.index }
    {
        Line {
            count: room.index + 1,
            is_house: true,
            is_closed: true,
            ..self
        }
    }

    fn with_argument(self, name: Name, room: Room, argument: Argument) -> Line
        ensures { result ≡ with_argument self name room.index argument }
    {
        match argument {
            Argument::Number(x) => self.with_value(room, Some(x)),
            Argument::Dash => Line {
                is_closed: name == Name::Upd,
                ..self.with_value(room, None)
            },
            Argument::House => self.with_house(room),
        }
    }

    // A word that no place is left for is a fault.
    fn argued(self, name: Name, word: Word) -> Line
        ensures { result ≡ argued self name word }
    {
        let index = self.count;
        if self.is_closed | (index >= name.most()) {
            return self.faulty(What::TooMany, position(index), word);
        }
        match read_at(name.place(index), word) {
            Ok(argument) => self.with_argument(name, Room { index }, argument),
            Err(what) => self.faulty(what, position(index), word),
        }
    }

    // Nothing behind a fault is read.
    pub(crate) fn with(self, word: Word) -> Line
        ensures { result ≡ line_with self word }
    {
        match (self.fault, self.name) {
            (Some(_), _) => self,
            (None, None) => self.named(word),
            (None, Some(name)) => self.argued(name, word),
        }
    }

    pub(crate) fn is_complete(self, name: Name) -> bool
        ensures { result ≡ is_complete self name }
    {
        self.is_closed | (self.count == name.most())
    }

    pub(crate) fn missing(self) -> Fault
        ensures { result ≡ missing self }
    {
        Fault {
            what: What::Missing,
            word: position(self.count),
            text: 1,
            length: 0,
        }
    }
}
