// Angles as a person reads them.
#![tactic(auto)]

ghost use Rattle.std.specs.Prelude.{◌≡◌};
ghost use Rattle.std.specs.Float.{binary64};
ghost use Rattle.readable.specs.Angles.{degrees, tilt, heading, signed, to_tenths};

use algebra::{Quaternion, Vector};
use std::f64::consts::PI;

// Whole tenths, and whether the number is below zero.
#[derive(Clone, Copy)]
pub struct Tenths {
    pub below: bool,
    pub tenths: u64,
}

#[tactic(auto, unfolding(crate::specs::Angles::degrees))]
fn degrees(radians: f64) -> f64
    ensures { result ≡ degrees binary64 radians }
{
    radians * 180.0 / PI
}

// How far the third axis is from straight up, from 0 to 180 degrees: below 90 it points up.
#[tactic(auto, unfolding(crate::specs::Angles::tilt))]
pub fn tilt(q: Quaternion) -> f64
    ensures { result ≡ tilt binary64 q }
{
    let up = q.rotate(Vector(0.0, 0.0, 1.0));
    degrees(numbers::acos(floats::clamp(up.2, -1.0, 1.0)))
}

// Where the first axis points, seen from above: counter-clockwise from the reference's first axis,
// from -180 to 180 degrees.
#[tactic(auto, unfolding(crate::specs::Angles::heading))]
pub fn heading(q: Quaternion) -> f64
    ensures { result ≡ heading binary64 q }
{
    let ahead = q.rotate(Vector(1.0, 0.0, 0.0));
    degrees(numbers::atan2(ahead.1, ahead.0))
}

// The whole part of y, with a sign, where 64 bits hold it.
#[tactic(auto, unfolding(crate::specs::Angles::signed))]
fn signed(below: bool, y: f64) -> Option<Tenths>
    ensures { result ≡ signed below y }
{
    if y > -1.0 && y < 18446744073709551616.0 {
        let tenths = std::num::truncating_f64_to_u64(y);
        Some(Tenths { below, tenths })
    } else {
        None
    }
}

// To the nearest tenth, but for what two roundings move; a half goes away from zero.
#[tactic(auto, unfolding(crate::specs::Angles::to_tenths))]
pub fn to_tenths(x: f64) -> Option<Tenths>
    ensures { result ≡ to_tenths binary64 x }
{
    signed(x < 0.0, floats::magnitude(x) * 10.0 + 0.5)
}
