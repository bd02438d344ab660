// Roots, angles and the exponential, each a fixed order of binary64 operations.
#![tactic(auto)]

ghost use Rattle.std.specs.Prelude.{◌≡◌};
ghost use Rattle.std.specs.Float.{nan};

pub mod arcs;
pub mod exponential;
pub mod roots;
pub mod sines;

pub use crate::arcs::{acos, asin, atan2};
pub use crate::exponential::exp;
pub use crate::roots::sqrt;
pub use crate::sines::{cos, sin, tan};

// What a function gives outside its domain.
fn nan() -> f64
    ensures { result ≡ nan }
{
    0.0 / 0.0
}
