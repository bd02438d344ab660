// Which settings and setter values are taken. Ends are included, a NaN is outside, and -0 counts as 0.
ghost use Rattle.std.specs.Prelude.{◌≡◌};
ghost use Rattle.std.specs.Float.{binary64};
ghost use Rattle.limits.specs.Limits.{tau_taken, tau_or_off_taken, gain_tau_taken, sigma_taken, vertical_factor_taken, forgetting_time_taken, threshold_taken, duration_taken, norm_threshold_taken, dip_threshold_taken, min_gyr_taken, rejection_factor_taken, ref_norm_taken, ref_dip_taken};

use crate::sample::within;

const LONGEST_TIME: f64 = 10000.0;

const LEAST_TAU: f64 = 0.0001;

const SIGMA_LIMIT: f64 = 100.0;

const LEAST_FORGETTING_TIME: f64 = 0.1;

const LEAST_THRESHOLD: f64 = 0.0001;

const THRESHOLD_LIMIT: f64 = 90.0;

const NORM_THRESHOLD_LIMIT: f64 = 10.0;

const DIP_THRESHOLD_LIMIT: f64 = 180.0;

const MIN_GYR_LIMIT: f64 = 1000.0;

const REJECTION_FACTOR_LIMIT: f64 = 1000.0;

const REF_NORM_LIMIT: f64 = 2000000.0;

const REF_DIP_LIMIT: f64 = 1.6;

// The time constant of a filter that runs at the interval ts.
pub fn tau_taken(ts: f64, tau: f64) -> bool
    ensures { result ≡ tau_taken binary64 ts tau }
{
    within(ts, LONGEST_TIME, tau)
}

// A time constant, or 0 and below: -10000 to 0, or from least up.
#[tactic(auto, unfolding(crate::specs::Limits::tau_or_off_taken))]
pub fn tau_or_off_taken(least: f64, tau: f64) -> bool
    ensures { result ≡ tau_or_off_taken binary64 least tau }
{
    within(-LONGEST_TIME, 0.0, tau) | within(least, LONGEST_TIME, tau)
}

// The time constant of a gain in seconds, or 0 and below.
pub fn gain_tau_taken(tau: f64) -> bool
    ensures { result ≡ gain_tau_taken binary64 tau }
{
    tau_or_off_taken(LEAST_TAU, tau)
}

// A standard deviation of the bias: °/s in the settings, rad/s in `set_bias_estimate`.
pub fn sigma_taken(sigma: f64) -> bool
    ensures { result ≡ sigma_taken binary64 sigma }
{
    within(0.0, SIGMA_LIMIT, sigma)
}

// How strongly the bias about the vertical is drawn to 0 in motion, without a unit.
pub fn vertical_factor_taken(factor: f64) -> bool
    ensures { result ≡ vertical_factor_taken binary64 factor }
{
    within(0.0, 1.0, factor)
}

// The time in seconds in which the bias is forgotten.
pub fn forgetting_time_taken(t: f64) -> bool
    ensures { result ≡ forgetting_time_taken binary64 t }
{
    within(LEAST_FORGETTING_TIME, LONGEST_TIME, t)
}

// The bias clip and both rest thresholds.
pub fn threshold_taken(th: f64) -> bool
    ensures { result ≡ threshold_taken binary64 th }
{
    within(LEAST_THRESHOLD, THRESHOLD_LIMIT, th)
}

// A time in seconds that may be 0.
pub fn duration_taken(t: f64) -> bool
    ensures { result ≡ duration_taken binary64 t }
{
    within(0.0, LONGEST_TIME, t)
}

// By which share of its norm a field may differ from the reference.
pub fn norm_threshold_taken(th: f64) -> bool
    ensures { result ≡ norm_threshold_taken binary64 th }
{
    within(0.0, NORM_THRESHOLD_LIMIT, th)
}

// By how many degrees of dip a field may differ from the reference.
pub fn dip_threshold_taken(th: f64) -> bool
    ensures { result ≡ dip_threshold_taken binary64 th }
{
    within(0.0, DIP_THRESHOLD_LIMIT, th)
}

// The rate in °/s from which the time near a candidate counts.
pub fn min_gyr_taken(gyr: f64) -> bool
    ensures { result ≡ min_gyr_taken binary64 gyr }
{
    within(0.0, MIN_GYR_LIMIT, gyr)
}

// What the gain is divided by once a disturbed field has lasted too long.
pub fn rejection_factor_taken(factor: f64) -> bool
    ensures { result ≡ rejection_factor_taken binary64 factor }
{
    within(1.0, REJECTION_FACTOR_LIMIT, factor)
}

// The norm of a reference in the magnetometer's unit.
pub fn ref_norm_taken(norm: f64) -> bool
    ensures { result ≡ ref_norm_taken binary64 norm }
{
    within(0.0, REF_NORM_LIMIT, norm)
}

// The dip of a reference in radians.
pub fn ref_dip_taken(dip: f64) -> bool
    ensures { result ≡ ref_dip_taken binary64 dip }
{
    within(-REF_DIP_LIMIT, REF_DIP_LIMIT, dip)
}
