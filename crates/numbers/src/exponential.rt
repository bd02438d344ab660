// The exponential, for a number that is not above 0.
ghost use Rattle.std.specs.Prelude.{◌≡◌};
ghost use Rattle.std.specs.Float.{binary64};
ghost use Rattle.numbers.specs.Exponential.{kexp, power, exp};

use std::f64::consts::LOG2_E;

// The exponential is given from -EXP_LIMIT to 0.
const EXP_LIMIT: f64 = 10000.0;

// Below -EXP_FLOOR it is 0.
const EXP_FLOOR: f64 = 708.0;

const E0: f64 = 0.5;

const E1: f64 = 0.16666666666666463;

const E2: f64 = 0.041666666666607496;

const E3: f64 = 0.008333333333486848;

const E4: f64 = 0.001388888892550491;

const E5: f64 = 0.00019841269485163833;

const E6: f64 = 2.480151017526088e-05;

const E7: f64 = 2.75576303227673e-06;

const E8: f64 = 2.762463362342066e-07;

const E9: f64 = 2.498016417073605e-08;

// e^r, for an r within ±0.3466.
#[tactic(auto, unfolding(crate::specs::Exponential::kexp))]
fn kexp(r: f64) -> f64
    ensures { result ≡ kexp r }
{
    let z = r * r;
    let w = z * z;
    let a = (E0 + r * E1) + z * (E2 + r * E3);
    let b = (E4 + r * E5) + z * (E6 + r * E7);
    let c = E8 + r * E9;
    let q = a + w * (b + w * c);
    1.0 + (r + z * q)
}

// 1.5 * 2^52 + 1023.
const EXP_MAGIC: f64 = 6755399441056767.0;

// 2^k, for a t of k + EXP_MAGIC and a k from -1022 to 1023: the last eleven bits of t are k + 1023.
fn power(t: f64) -> f64
    ensures { result ≡ power t }
{
    floats::from_bits((floats::to_bits(t) & 0x7ff) << 52)
}

// The logarithm of 2 to base e, in two parts. The first has 42 bits, so k * L1 is exact.
const L1: f64 = 0.6931471805598903;

const L2: f64 = 5.497923018708371e-14;

// e to the power of x.
#[tactic(auto, unfolding(crate::specs::Exponential::exponential))]
pub fn exp(x: f64) -> f64
    ensures { result ≡ exp binary64 x }
{
    if (-EXP_FLOOR <= x) & (x <= 0.0) {
        let t = x * LOG2_E + EXP_MAGIC;
        let k = t - EXP_MAGIC;
        let r = (x - k * L1) - k * L2;
        floats::clamp(kexp(r) * power(t), 0.0, 1.0)
    } else if (-EXP_LIMIT <= x) & (x <= 0.0) {
        0.0
    } else {
        crate::nan()
    }
}
