// A filter as an image of 170 numbers, for callers that cannot name its types.
#![tactic(auto)]

ghost use Rattle.std.specs.Prelude.{◌≡◌};

use vqf::VQF;

pub mod marks;
pub mod pack;
pub mod unpack;

pub use crate::pack::WrongLength;

// The numbers of an image, and of the settings, with which it begins.
pub const SIZE: usize = 170;

pub const SETTINGS: usize = 25;

// Written and read again: for every filter, the filter itself.
pub fn round_trip(f: VQF) -> VQF
    ensures { result ≡ f }
{
    let mut image = [0.0; SIZE];
    let _ = pack::pack(&mut image, f);
    unpack::unpack(&image)
}
