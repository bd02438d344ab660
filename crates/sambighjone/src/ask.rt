// The calls that ask. They leave the image as it is.
ghost use Rattle.std.specs.Prelude.{◌≡◌, [], ◌∷◌};
ghost use Rattle.std.specs.Float.{binary64};
ghost use Rattle.limits.specs.Answers.{told};
ghost use Rattle.vqf.specs.Asked.{quat_3d, quat_6d, quat_9d, delta, bias_estimate, relative_rest_deviations, params, rest_detected, mag_dist_detected};
ghost use Rattle.sambighjone.specs.Calls.{asked, four, both, bias_and_sigma, mag_ref, settings, yes_or_no};

use crate::put::asked;
use algebra::Quaternion;
use image::pack::settings;
use inertial::asked::BiasEstimate;
use tilt::Deviations;
use vqf::VQF;

fn four(q: Quaternion) -> [f64; 4]
    ensures { result ≡ four q }
{
    [q.0, q.1, q.2, q.3]
}

fn bias_and_sigma(b: BiasEstimate) -> [f64; 4]
    ensures { result ≡ bias_and_sigma b }
{
    [b.bias.0, b.bias.1, b.bias.2, b.sigma]
}

fn one(x: f64) -> [f64; 1]
    ensures { result ≡ x ∷ [] }
{
    [x]
}

fn mag_ref(f: VQF) -> [f64; 2]
    ensures { result ≡ mag_ref f }
{
    [f.mag_ref_norm(), f.mag_ref_dip()]
}

fn yes_or_no(b: bool) -> [u32; 1]
    ensures { result ≡ yes_or_no b ∷ [] }
{
    [u32::from(b)]
}

fn both(d: Deviations) -> [f64; 2]
    ensures { result ≡ both d }
{
    [d.0, d.1]
}

// The gyroscope alone: w, x, y, z.
pub fn sambighjone_quat_3d(image: &[f64], out: &mut [f64]) -> u32
    ensures { told result out.new ≡ asked (λ f. four (quat_3d f)) image.now out.old }
{
    asked(image, out, VQF::quat_3d, four)
}

// The tilt: w, x, y, z.
pub fn sambighjone_quat_6d(image: &[f64], out: &mut [f64]) -> u32
    ensures { told result out.new ≡ asked (λ f. four (quat_6d binary64 f)) image.now out.old }
{
    asked(image, out, VQF::quat_6d, four)
}

// Tilt and heading: w, x, y, z.
pub fn sambighjone_quat_9d(image: &[f64], out: &mut [f64]) -> u32
    ensures { told result out.new ≡ asked (λ f. four (quat_9d binary64 f)) image.now out.old }
{
    asked(image, out, VQF::quat_9d, four)
}

// The heading against the tilt's own.
pub fn sambighjone_delta(image: &[f64], out: &mut [f64]) -> u32
    ensures { told result out.new ≡ asked (λ f. delta f ∷ []) image.now out.old }
{
    asked(image, out, VQF::delta, one)
}

// The gyroscope's bias, and how sure it is.
pub fn sambighjone_bias(image: &[f64], out: &mut [f64]) -> u32
    ensures { told result out.new ≡ asked (λ f. bias_and_sigma (bias_estimate binary64 f)) image.now out.old }
{
    asked(image, out, VQF::bias_estimate, bias_and_sigma)
}

// The magnetic reference: norm and dip.
pub fn sambighjone_mag_ref(image: &[f64], out: &mut [f64]) -> u32
    ensures { told result out.new ≡ asked mag_ref image.now out.old }
{
    asked(image, out, |f| f, mag_ref)
}

// How far from rest: gyroscope and accelerometer.
pub fn sambighjone_relative_rest_deviations(image: &[f64], out: &mut [f64]) -> u32
    ensures { told result out.new ≡ asked (λ f. both (relative_rest_deviations binary64 f)) image.now out.old }
{
    asked(image, out, VQF::relative_rest_deviations, both)
}

// The settings, in the order in which an image has them.
pub fn sambighjone_settings(image: &[f64], out: &mut [f64]) -> u32
    ensures { told result out.new ≡ asked (λ f. settings (params f)) image.now out.old }
{
    asked(image, out, VQF::params, settings)
}

// Whether the sensor rests: 0 or 1.
pub fn sambighjone_rest(image: &[f64], out: &mut [u32]) -> u32
    ensures { told result out.new ≡ asked (λ f. yes_or_no (rest_detected f) ∷ []) image.now out.old }
{
    asked(image, out, VQF::rest_detected, yes_or_no)
}

// Whether the magnetic field is disturbed: 0 or 1.
pub fn sambighjone_disturbed(image: &[f64], out: &mut [u32]) -> u32
    ensures { told result out.new ≡ asked (λ f. yes_or_no (mag_dist_detected f) ∷ []) image.now out.old }
{
    asked(image, out, VQF::mag_dist_detected, yes_or_no)
}
