// Sine, cosine and tangent.
ghost use Rattle.std.specs.Prelude.{◌≡◌};
ghost use Rattle.std.specs.Float.{binary64};
ghost use Rattle.numbers.specs.Sines.{ksin, kcos, reduce, sine_of, cosine_of, sin, cos, tan};

// Sine and cosine are given from -ANGLE_LIMIT to ANGLE_LIMIT, the tangent from 0 to TAN_LIMIT.
const ANGLE_LIMIT: f64 = 256.0;

const TAN_LIMIT: f64 = 0.75;

// Up to here an angle is its own remainder.
const NEAR: f64 = 0.785;

const S0: f64 = 0.1666666666666663;

const S1: f64 = -0.00833333333332184;

const S2: f64 = 0.00019841269829358438;

const S3: f64 = -2.7557313538457614e-06;

const S4: f64 = 2.5050734377788088e-08;

const S5: f64 = -1.5895432532843642e-10;

// sin(r - d), for an r within ±0.7855 and a d that is small beside it.
#[tactic(auto, unfolding(crate::specs::Sines::ksin))]
fn ksin(r: f64, d: f64) -> f64
    ensures { result ≡ ksin r d }
{
    let z = r * r;
    let w = z * z;
    let p = (S0 + z * S1) + w * ((S2 + z * S3) + w * (S4 + z * S5));
    r - (d + (r * z) * p)
}

const C0: f64 = 0.041666666666666595;

const C1: f64 = -0.0013888888888873338;

const C2: f64 = 2.4801587288997465e-05;

const C3: f64 = -2.755731421528791e-07;

const C4: f64 = 2.0875705112608293e-09;

const C5: f64 = -1.135873261096118e-11;

// cos(r - d), for the same r and d.
#[tactic(auto, unfolding(crate::specs::Sines::kcos))]
fn kcos(r: f64, d: f64) -> f64
    ensures { result ≡ kcos r d }
{
    let z = r * r;
    let w = z * z;
    let p = (C0 + z * C1) + w * ((C2 + z * C3) + w * (C4 + z * C5));
    1.0 - (0.5 * z - (w * p + r * d))
}

// 1.5 * 2^52: what is added to it is rounded to a whole number.
const MAGIC: f64 = 6755399441055744.0;

const TWO_OVER_PI: f64 = 0.6366197723675814;

// pi / 2 in three parts. The first two have 45 bits each, so k * P1 and k * P2 are exact.
const P1: f64 = 1.5707963267948912;

const P2: f64 = 5.390302858158031e-15;

const P3: f64 = 8.843720566135701e-29;

// An angle as k quarter turns and r - d: m is k mod 4, from -2 to 2.
#[derive(Clone, Copy)]
struct Reduced {
    m: f64,
    r: f64,
    d: f64,
}

#[tactic(auto, unfolding(crate::specs::Sines::reduce))]
fn reduce(x: f64) -> Reduced
    ensures { result ≡ reduce x }
{
    let k = (x * TWO_OVER_PI + MAGIC) - MAGIC;
    let a = x - k * P1;
    let b = k * P2;
    let r = a - b;
    let d = k * P3 + (b - (a - r));
    let m = k - 4.0 * ((k * 0.25 + MAGIC) - MAGIC);
    Reduced { m, r, d }
}

// The sine of an angle so written.
#[tactic(auto, unfolding(crate::specs::Sines::sine_of))]
fn sine_of(t: Reduced) -> f64
    ensures { result ≡ sine_of t }
{
    if t.m == 0.0 {
        ksin(t.r, t.d)
    } else if t.m == 1.0 {
        kcos(t.r, t.d)
    } else if t.m == -1.0 {
        -kcos(t.r, t.d)
    } else {
        -ksin(t.r, t.d)
    }
}

#[tactic(auto, unfolding(crate::specs::Sines::cosine_of))]
fn cosine_of(t: Reduced) -> f64
    ensures { result ≡ cosine_of t }
{
    if t.m == 0.0 {
        kcos(t.r, t.d)
    } else if t.m == 1.0 {
        -ksin(t.r, t.d)
    } else if t.m == -1.0 {
        ksin(t.r, t.d)
    } else {
        -kcos(t.r, t.d)
    }
}

// The sine of x radians.
#[tactic(auto, unfolding(crate::specs::Sines::sine))]
pub fn sin(x: f64) -> f64
    ensures { result ≡ sin binary64 x }
{
    if (-NEAR <= x) & (x <= NEAR) {
        floats::clamp(ksin(x, 0.0), -1.0, 1.0)
    } else if (-ANGLE_LIMIT <= x) & (x <= ANGLE_LIMIT) {
        floats::clamp(sine_of(reduce(x)), -1.0, 1.0)
    } else {
        crate::nan()
    }
}

// The cosine of x radians.
#[tactic(auto, unfolding(crate::specs::Sines::cosine))]
pub fn cos(x: f64) -> f64
    ensures { result ≡ cos binary64 x }
{
    if (-NEAR <= x) & (x <= NEAR) {
        floats::clamp(kcos(x, 0.0), -1.0, 1.0)
    } else if (-ANGLE_LIMIT <= x) & (x <= ANGLE_LIMIT) {
        floats::clamp(cosine_of(reduce(x)), -1.0, 1.0)
    } else {
        crate::nan()
    }
}

// The tangent of x radians.
#[tactic(auto, unfolding(crate::specs::Sines::tan))]
pub fn tan(x: f64) -> f64
    ensures { result ≡ tan x }
{
    if (0.0 <= x) & (x <= TAN_LIMIT) {
        floats::clamp(ksin(x, 0.0) / kcos(x, 0.0), 0.0, 1.0)
    } else {
        crate::nan()
    }
}
