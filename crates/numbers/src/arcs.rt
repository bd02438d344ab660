// Arc sine, arc cosine, and the angle of a point.
ghost use Rattle.std.specs.Prelude.{◌≡◌};
ghost use Rattle.std.specs.Float.{binary64};
ghost use Rattle.floats.specs.Fractions.{sign};
ghost use Rattle.numbers.specs.Arcs.{kasin, near_one, ratio, katan, upper, asin, acos, atan2};

use crate::roots::sqrt;
use std::f64::consts::{FRAC_PI_2, PI};

// What PI and FRAC_PI_2 lack.
const PI_LO: f64 = 1.2246467991473532e-16;

const FRAC_PI_2_LO: f64 = 6.123233995736766e-17;

const A0: f64 = 0.16666666666665408;

const A1: f64 = 0.07500000000337143;

const A2: f64 = 0.04464285682823248;

const A3: f64 = 0.030381959140456976;

const A4: f64 = 0.022371757976487848;

const A5: f64 = 0.01735970575444213;

const A6: f64 = 0.01388522671368204;

const A7: f64 = 0.012169263307403994;

const A8: f64 = 0.006527773191929234;

const A9: f64 = 0.01952876827190372;

const A10: f64 = -0.0162249749206657;

const A11: f64 = 0.031912724911284364;

// (asin(s) - s) / s, for a z of s * s, from 0 to 0.25.
#[tactic(auto, unfolding(crate::specs::Arcs::kasin))]
fn kasin(z: f64) -> f64
    ensures { result ≡ kasin z }
{
    let w = z * z;
    let u = w * w;
    let p0 = (A0 + z * A1) + w * (A2 + z * A3);
    let p1 = (A4 + z * A5) + w * (A6 + z * A7);
    let p2 = (A8 + z * A9) + w * (A10 + z * A11);
    z * (p0 + u * (p1 + u * p2))
}

// The arc cosine of a, from 0.5 to 1, as g + q: twice the arc sine of the root of (1 - a) / 2.
#[derive(Clone, Copy)]
struct Parts {
    g: f64,
    q: f64,
}

#[tactic(auto, unfolding(crate::specs::Arcs::near_one))]
fn near_one(a: f64) -> Parts
    ensures { result ≡ near_one a }
{
    let z = 0.5 * (1.0 - a);
    let s = sqrt(z);
    let g = s + s;
    Parts { g, q: g * kasin(z) }
}

// The angle in radians whose sine is x, from -PI/2 to PI/2.
#[tactic(auto, unfolding(crate::specs::Arcs::arcsine))]
pub fn asin(x: f64) -> f64
    ensures { result ≡ asin binary64 x }
{
    if (-1.0 <= x) & (x <= 1.0) {
        let a = floats::magnitude(x);
        if a <= 0.5 {
            floats::clamp(x + x * kasin(x * x), -FRAC_PI_2, FRAC_PI_2)
        } else {
            let h = near_one(a);
            let v = floats::clamp(
                (FRAC_PI_2 - h.g) + (FRAC_PI_2_LO - h.q),
                -FRAC_PI_2,
                FRAC_PI_2,
            );
            if x < 0.0 { -v } else { v }
        }
    } else {
        crate::nan()
    }
}

// The angle in radians whose cosine is x, from 0 to PI.
#[tactic(auto, unfolding(crate::specs::Arcs::arccosine))]
pub fn acos(x: f64) -> f64
    ensures { result ≡ acos binary64 x }
{
    if (-1.0 <= x) & (x <= 1.0) {
        let a = floats::magnitude(x);
        if a <= 0.5 {
            floats::clamp(FRAC_PI_2 - (x + (x * kasin(x * x) - FRAC_PI_2_LO)), 0.0, PI)
        } else {
            let h = near_one(a);
            if x < 0.0 {
                floats::clamp(PI - (h.g + (h.q - PI_LO)), 0.0, PI)
            } else {
                floats::clamp(h.g + h.q, 0.0, PI)
            }
        }
    } else {
        crate::nan()
    }
}

// n / d, and 0 where d is 0.
#[tactic(auto, unfolding(crate::specs::Arcs::ratio))]
fn ratio(n: f64, d: f64) -> f64
    ensures { result ≡ ratio n d }
{
    if d == 0.0 { 0.0 } else { n / d }
}

const T0: f64 = -0.3333333333333307;

const T1: f64 = 0.19999999999951748;

const T2: f64 = -0.14285714282587975;

const T3: f64 = 0.11111111007338541;

const T4: f64 = -0.09090907007737466;

const T5: f64 = 0.07692279888208729;

const T6: f64 = -0.06666404417716022;

const T7: f64 = 0.05880529776014685;

const T8: f64 = -0.05253526647654008;

const T9: f64 = 0.047223479504406515;

const T10: f64 = -0.04219242629361091;

const T11: f64 = 0.03664314358570091;

const T12: f64 = -0.029905726114505093;

const T13: f64 = 0.021987056854413524;

const T14: f64 = -0.013902561604954674;

const T15: f64 = 0.0071978748094649455;

const T16: f64 = -0.0028856039671883273;

const T17: f64 = 0.0008315575198515723;

const T18: f64 = -0.0001522106732397829;

const T19: f64 = 1.3229952258016625e-05;

// hi + lo + the arc tangent of n / d, for an n no larger in size than d.
#[tactic(auto, unfolding(crate::specs::Arcs::katan))]
fn katan(n: f64, d: f64, hi: f64, lo: f64) -> f64
    ensures { result ≡ katan n d hi lo }
{
    let t = ratio(n, d);
    let z = t * t;
    let w = z * z;
    let u = w * w;
    let q = u * u;
    let p0 = (T0 + z * T1) + w * (T2 + z * T3);
    let p1 = (T4 + z * T5) + w * (T6 + z * T7);
    let p2 = (T8 + z * T9) + w * (T10 + z * T11);
    let p3 = (T12 + z * T13) + w * (T14 + z * T15);
    let p4 = (T16 + z * T17) + w * (T18 + z * T19);
    let p = (p0 + u * p1) + q * ((p2 + u * p3) + q * p4);
    floats::clamp(hi + (t + ((t * z) * p + lo)), 0.0, PI)
}

// Whether the sign is set, also of a zero.
fn negative(x: f64) -> bool
    ensures { result ≡ sign x }
{
    floats::to_bits(x) >= 0x8000_0000_0000_0000
}

// The angle of the point (x, y), for a y from 0 up.
#[tactic(auto, unfolding(crate::specs::Arcs::upper))]
fn upper(y: f64, x: f64) -> f64
    ensures { result ≡ upper y x }
{
    if floats::magnitude(x) < y {
        katan(-x, y, FRAC_PI_2, FRAC_PI_2_LO)
    } else if negative(x) {
        katan(y, x, PI, PI_LO)
    } else {
        katan(y, x, 0.0, 0.0)
    }
}

// The angle in radians of the point (x, y), from -PI to PI.
#[tactic(auto, unfolding(crate::specs::Arcs::angle))]
pub fn atan2(y: f64, x: f64) -> f64
    ensures { result ≡ atan2 binary64 y x }
{
    if floats::finite(y) & floats::finite(x) {
        let v = upper(floats::magnitude(y), x);
        if negative(y) { -v } else { v }
    } else {
        crate::nan()
    }
}
