// The setters, and the reset.
ghost use Rattle.std.specs.Prelude.{◌≡◌, None, Some};
ghost use Rattle.std.specs.Float.{binary64};
ghost use Rattle.algebra.specs.Vectors.{vector};
ghost use Rattle.limits.specs.Answers.{told};
ghost use Rattle.vqf.specs.Setters.{set_tau_acc, set_tau_mag, set_motion_bias_est_enabled, set_rest_bias_est_enabled, set_mag_dist_rejection_enabled, set_rest_detection_thresholds, set_bias_estimate, set_mag_ref, reset_state};
ghost use Rattle.sambighjone.specs.Calls.{fed, switched};

use crate::kept::{fed, switched};
use algebra::Vector;
use vqf::VQF;

// How slowly the tilt follows the accelerometer, in seconds.
pub fn sambighjone_set_tau_acc(image: &mut [f64], tau: f64) -> u32
    ensures { told result image.new ≡ fed (λ f. set_tau_acc binary64 f tau) image.old }
{
    fed(image, |f| f.set_tau_acc(tau))
}

// How slowly the heading follows the magnetometer, in seconds; 0: at once; below 0: not, but for the first sample.
pub fn sambighjone_set_tau_mag(image: &mut [f64], tau: f64) -> u32
    ensures { told result image.new ≡ fed (λ f. set_tau_mag binary64 f tau) image.old }
{
    fed(image, |f| f.set_tau_mag(tau))
}

// Whether the bias is estimated in motion: 0 for no.
pub fn sambighjone_set_motion_bias_est_enabled(image: &mut [f64], on: u32) -> u32
    ensures { told result image.new ≡ switched set_motion_bias_est_enabled on image.old }
{
    switched(image, on, VQF::set_motion_bias_est_enabled)
}

// Whether rest is detected, and the bias estimated there: 0 for no.
pub fn sambighjone_set_rest_bias_est_enabled(image: &mut [f64], on: u32) -> u32
    ensures { told result image.new ≡ switched (set_rest_bias_est_enabled binary64) on image.old }
{
    switched(image, on, VQF::set_rest_bias_est_enabled)
}

// Whether a disturbed field is noticed and kept from the heading: 0 for no.
pub fn sambighjone_set_mag_dist_rejection_enabled(image: &mut [f64], on: u32) -> u32
    ensures { told result image.new ≡ switched (set_mag_dist_rejection_enabled binary64) on image.old }
{
    switched(image, on, VQF::set_mag_dist_rejection_enabled)
}

// The deviations from which a sample is not quiet: in °/s and in m/s².
pub fn sambighjone_set_rest_detection_thresholds(image: &mut [f64], th_gyr: f64, th_acc: f64) -> u32
    ensures { told result image.new ≡ fed (λ f. set_rest_detection_thresholds binary64 f th_gyr th_acc) image.old }
{
    fed(image, |f| f.set_rest_detection_thresholds(th_gyr, th_acc))
}

// The bias, its uncertainty as it is.
pub fn sambighjone_set_bias_estimate(image: &mut [f64], x: f64, y: f64, z: f64) -> u32
    ensures { told result image.new ≡ fed (λ f. set_bias_estimate binary64 f (vector x y z) None) image.old }
{
    fed(image, |f| f.set_bias_estimate(Vector(x, y, z), None))
}

// The gyro bias and its standard deviation, both in rad/s.
pub fn sambighjone_set_bias_estimate_with_sigma(
    image: &mut [f64],
    x: f64,
    y: f64,
    z: f64,
    sigma: f64,
) -> u32
    ensures { told result image.new ≡ fed (λ f. set_bias_estimate binary64 f (vector x y z) (Some sigma)) image.old }
{
    fed(image, |f| f.set_bias_estimate(Vector(x, y, z), Some(sigma)))
}

// The reference: its norm in the magnetometer's unit, its dip in radians.
pub fn sambighjone_set_mag_ref(image: &mut [f64], norm: f64, dip: f64) -> u32
    ensures { told result image.new ≡ fed (λ f. set_mag_ref binary64 f norm dip) image.old }
{
    fed(image, |f| f.set_mag_ref(norm, dip))
}

// A fresh state; the settings stay.
pub fn sambighjone_reset_state(image: &mut [f64]) -> u32
    ensures { told result image.new ≡ fed (λ f. reset_state binary64 f) image.old }
{
    fed(image, |f| f.reset_state())
}
