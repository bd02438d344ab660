// Small functions on floats that everything above uses.
#![tactic(auto)]

ghost use Rattle.std.specs.Prelude.{◌≡◌};
ghost use Rattle.std.specs.Float.{binary64};
ghost use Rattle.std.specs.Float.Ieee.{of_bits, to_bits};
ghost use Rattle.std.specs.Float.Ieee.Scale.{finite};
ghost use Rattle.floats.specs.Definitions.{magnitude, clamp, larger, smaller};

// x without its sign.
#[tactic(auto, using(crate::proofs::Methods::without_sign))]
pub fn magnitude(x: f64) -> f64
    ensures { result ≡ magnitude x }
{
    x.abs()
}

// Neither a NaN nor an infinity.
pub fn finite(x: f64) -> bool
    ensures { result ≡ finite x }
{
    x - x == 0.0
}

// x between lo and hi; a NaN goes to hi.
#[tactic(auto, unfolding(crate::specs::Definitions::clamp))]
pub fn clamp(x: f64, lo: f64, hi: f64) -> f64
    ensures { result ≡ clamp x lo hi }
{
    if x <= hi {
        if lo <= x { x } else { lo }
    } else {
        hi
    }
}

// A NaN gives way to the other value; of two that are equal the first is kept.
#[tactic(auto, using(crate::proofs::Methods::larger_kept), unfolding(crate::specs::Definitions::larger))]
pub fn larger(x: f64, y: f64) -> f64
    ensures { result ≡ larger x y }
{
    if (x < y) | x.is_nan() { y } else { x }
}

// As `larger`: a NaN gives way, and of two that are equal the first is kept.
#[tactic(auto, using(crate::proofs::Methods::smaller_kept), unfolding(crate::specs::Definitions::smaller))]
pub fn smaller(x: f64, y: f64) -> f64
    ensures { result ≡ smaller x y }
{
    if (y < x) | x.is_nan() { y } else { x }
}

// The float with the bits n. All the bits that stand for a NaN give the one NaN.
pub fn from_bits(n: u64) -> f64
    ensures { result ≡ of_bits binary64 n }
{
    if (n & 0x7fff_ffff_ffff_ffff) > 0x7ff0_0000_0000_0000 {
        0.0 / 0.0
    } else {
        f64::from_bits(n)
    }
}

// The bits of x; for a NaN one fixed pattern.
#[tactic(auto, using(crate::proofs::Methods::nan_pattern))]
pub fn to_bits(x: f64) -> u64
    ensures { result ≡ to_bits binary64 x }
{
    if x.is_nan() {
        0x7ff8_0000_0000_0000
    } else {
        x.to_bits()
    }
}
