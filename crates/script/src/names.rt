// The words of a script that are no numbers: a word of at most seven bytes is its bytes, packed
// behind a 1.
ghost use Rattle.std.specs.Prelude.{◌≡◌, ◌≤◌, Some};
ghost use Rattle.std.specs.Fmt.{styled_text};
ghost use Rattle.script.specs.Names.{name_of, text, most};
ghost use Rattle.script.specs.Lines.{place_of};

use crate::line::Place;
use std::fmt;

pub(crate) const DASH: u64 = 0x012d;

pub(crate) const ZERO: u64 = 0x0130;

pub(crate) const ONE: u64 = 0x0131;

pub(crate) const HOUSE: u64 = 0x0168_6f75_7365;

// What the first word of a line names: a call, what is asked of the filter, or a function.
#[derive(Clone, Copy, Debug, PartialEq, Eq)]
pub enum Name {
    New,
    Gyr,
    GyrTs,
    Acc,
    Mag,
    Upd,
    TauAcc,
    TauMag,
    Motion,
    Rest,
    Dist,
    Th,
    Bias,
    MagRef,
    Reset,
    State,
    Get,
    Sqrt,
    Sin,
    Cos,
    Tan,
    Exp,
    Asin,
    Acos,
    Atan2,
}

impl Name {
    // The name that a word spells.
    #[tactic(auto, unfolding(crate::specs::Names::name_of))]
    pub(crate) fn of(text: u64) -> Option<Name>
        ensures { result ≡ name_of text }
    {
        match text {
            0x016e_6577 => Some(Name::New),
            0x0167_7972 => Some(Name::Gyr),
            0x0167_7972_7473 => Some(Name::GyrTs),
            0x0161_6363 => Some(Name::Acc),
            0x016d_6167 => Some(Name::Mag),
            0x0175_7064 => Some(Name::Upd),
            0x0174_6175_5f61_6363 => Some(Name::TauAcc),
            0x0174_6175_5f6d_6167 => Some(Name::TauMag),
            0x01_6d6f_7469_6f6e => Some(Name::Motion),
            0x01_7265_7374 => Some(Name::Rest),
            0x01_6469_7374 => Some(Name::Dist),
            0x01_7468 => Some(Name::Th),
            0x01_6269_6173 => Some(Name::Bias),
            0x01_6d61_6772_6566 => Some(Name::MagRef),
            0x0172_6573_6574 => Some(Name::Reset),
            0x0173_7461_7465 => Some(Name::State),
            0x0167_6574 => Some(Name::Get),
            0x01_7371_7274 => Some(Name::Sqrt),
            0x0173_696e => Some(Name::Sin),
            0x0163_6f73 => Some(Name::Cos),
            0x0174_616e => Some(Name::Tan),
            0x0165_7870 => Some(Name::Exp),
            0x01_6173_696e => Some(Name::Asin),
            0x01_6163_6f73 => Some(Name::Acos),
            0x0161_7461_6e32 => Some(Name::Atan2),
            _ => None,
        }
    }

    fn text(self) -> &'static str
        ensures { result.now ≡ text self }
    {
        match self {
            Name::New => "new",
            Name::Gyr => "gyr",
            Name::GyrTs => "gyrts",
            Name::Acc => "acc",
            Name::Mag => "mag",
            Name::Upd => "upd",
            Name::TauAcc => "tau_acc",
            Name::TauMag => "tau_mag",
            Name::Motion => "motion",
            Name::Rest => "rest",
            Name::Dist => "dist",
            Name::Th => "th",
            Name::Bias => "bias",
            Name::MagRef => "magref",
            Name::Reset => "reset",
            Name::State => "state",
            Name::Get => "get",
            Name::Sqrt => "sqrt",
            Name::Sin => "sin",
            Name::Cos => "cos",
            Name::Tan => "tan",
            Name::Exp => "exp",
            Name::Asin => "asin",
            Name::Acos => "acos",
            Name::Atan2 => "atan2",
        }
    }

    // How many words follow it at most.
    pub(crate) fn most(self) -> usize
        ensures value { result ≡ most self }
        ensures upper_bound { result ≤ 28 }
    {
        match self {
            Name::Reset | Name::State | Name::Get => 0,
            Name::TauAcc | Name::TauMag | Name::Motion | Name::Rest | Name::Dist => 1,
            Name::Sqrt | Name::Sin | Name::Cos | Name::Tan | Name::Exp => 1,
            Name::Asin | Name::Acos => 1,
            Name::Th | Name::MagRef | Name::Atan2 => 2,
            Name::Gyr | Name::Acc | Name::Mag => 3,
            Name::GyrTs | Name::Bias => 4,
            Name::Upd => 9,
            Name::New => 28,
        }
    }

    // What the word asks for that comes after `i` others behind the name.
    pub(crate) fn place(self, i: usize) -> Place
        ensures { result ≡ place_of self i }
    {
        match (self, i) {
            (Name::New, 1 | 2) | (Name::Bias, 3) | (Name::Upd, 6) => Place::NumberOrDash,
            (Name::New, 3) => Place::NumberOrHouse,
            (Name::New, 5..=7) | (Name::Motion | Name::Rest | Name::Dist, _) => Place::Switch,
            _ => Place::Number,
        }
    }
}

impl fmt::Display for Name {
    ghost output = { λ name. Some (text name) };

    ghost styled_output = { λ name s. Some (styled_text s (text name)) };

    fn fmt<W: fmt::Write>(&self, f: &mut fmt::Formatter<W>) -> fmt::Result {
        f.pad(self.text())
    }
}
