ghost use Rattle.std.specs.Prelude.{◌≡◌};
ghost use Rattle.std.specs.Float.{binary64};
ghost use Rattle.filters.specs.Coefficients.{filter_coeffs, finite_coeffs, gain_from_tau};

use std::f64::consts::{PI, SQRT_2};

// Three coefficients b and two coefficients a.
#[derive(Clone, Copy)]
pub struct Coeffs {
    pub b0: f64,
    pub b1: f64,
    pub b2: f64,
    pub a1: f64,
    pub a2: f64,
}

// A Butterworth filter of second order with the time constant tau, for samples ts apart.
#[tactic(auto, unfolding(crate::specs::Coefficients::angle, crate::specs::Coefficients::coeffs, crate::specs::Coefficients::filter_coeffs))]
pub fn filter_coeffs(tau: f64, ts: f64) -> Coeffs
    ensures { result ≡ filter_coeffs tau ts }
{
    let fc = (SQRT_2 / (2.0 * PI)) / tau;
    let c = numbers::tan(PI * fc * ts);
    let d = c * c + SQRT_2 * c + 1.0;
    let b0 = c * c / d;
    Coeffs {
        b0,
        b1: 2.0 * b0,
        b2: b0,
        a1: 2.0 * (c * c - 1.0) / d,
        a2: (1.0 - SQRT_2 * c + c * c) / d,
    }
}

// Whether all five are finite.
#[tactic(auto, unfolding(crate::specs::Coefficients::finite_coeffs))]
pub fn finite_coeffs(k: Coeffs) -> bool
    ensures { result ≡ finite_coeffs k }
{
    floats::finite(k.b0)
        & floats::finite(k.b1)
        & floats::finite(k.b2)
        & floats::finite(k.a1)
        & floats::finite(k.a2)
}

// The gain of a filter of first order: 0 for a tau below 0, 1 for 0.
#[tactic(auto, unfolding(crate::specs::Coefficients::gain_from_tau))]
pub fn gain_from_tau(tau: f64, ts: f64) -> f64
    ensures { result ≡ gain_from_tau binary64 tau ts }
{
    if tau < 0.0 {
        0.0
    } else if tau == 0.0 {
        1.0
    } else {
        1.0 - numbers::exp(-ts / tau)
    }
}
