// The calls that ask. They leave the image as it is.
ghost use Rattle.std.specs.Prelude.{◌≡◌, [], ◌∷◌};
ghost use Rattle.std.specs.Float.{binary64};
ghost use Rattle.limits.specs.Answers.{told};
ghost use Rattle.vqf.specs.Asked.{quat_3d, quat_6d, quat_9d, delta, bias_estimate, relative_rest_deviations, params, rest_detected, mag_dist_detected};
ghost use Rattle.sambighjone.specs.Calls.{asked, four, both, bias_and_sigma, mag_ref, settings, yes_or_no};

// The gyroscope alone: w, x, y, z.
#[unsafe(no_mangle)]
pub extern "C" fn sambighjone_quat_3d(image: &[f64], out: &mut [f64]) -> u32
    ensures { told result out.new ≡ asked (λ f. four (quat_3d f)) image.now out.old }
{
    sambighjone::ask::sambighjone_quat_3d(image, out)
}

// The tilt: w, x, y, z.
#[unsafe(no_mangle)]
pub extern "C" fn sambighjone_quat_6d(image: &[f64], out: &mut [f64]) -> u32
    ensures { told result out.new ≡ asked (λ f. four (quat_6d binary64 f)) image.now out.old }
{
    sambighjone::ask::sambighjone_quat_6d(image, out)
}

// Tilt and heading: w, x, y, z.
#[unsafe(no_mangle)]
pub extern "C" fn sambighjone_quat_9d(image: &[f64], out: &mut [f64]) -> u32
    ensures { told result out.new ≡ asked (λ f. four (quat_9d binary64 f)) image.now out.old }
{
    sambighjone::ask::sambighjone_quat_9d(image, out)
}

// The heading against the tilt's own.
#[unsafe(no_mangle)]
pub extern "C" fn sambighjone_delta(image: &[f64], out: &mut [f64]) -> u32
    ensures { told result out.new ≡ asked (λ f. delta f ∷ []) image.now out.old }
{
    sambighjone::ask::sambighjone_delta(image, out)
}

// The gyroscope's bias, and how sure it is.
#[unsafe(no_mangle)]
pub extern "C" fn sambighjone_bias(image: &[f64], out: &mut [f64]) -> u32
    ensures { told result out.new ≡ asked (λ f. bias_and_sigma (bias_estimate binary64 f)) image.now out.old }
{
    sambighjone::ask::sambighjone_bias(image, out)
}

// The magnetic reference: norm and dip.
#[unsafe(no_mangle)]
pub extern "C" fn sambighjone_mag_ref(image: &[f64], out: &mut [f64]) -> u32
    ensures { told result out.new ≡ asked mag_ref image.now out.old }
{
    sambighjone::ask::sambighjone_mag_ref(image, out)
}

// How far from rest: gyroscope and accelerometer.
#[unsafe(no_mangle)]
pub extern "C" fn sambighjone_relative_rest_deviations(image: &[f64], out: &mut [f64]) -> u32
    ensures { told result out.new ≡ asked (λ f. both (relative_rest_deviations binary64 f)) image.now out.old }
{
    sambighjone::ask::sambighjone_relative_rest_deviations(image, out)
}

// The settings, in the order in which an image has them.
#[unsafe(no_mangle)]
pub extern "C" fn sambighjone_settings(image: &[f64], out: &mut [f64]) -> u32
    ensures { told result out.new ≡ asked (λ f. settings (params f)) image.now out.old }
{
    sambighjone::ask::sambighjone_settings(image, out)
}

// Whether the sensor rests: 0 or 1.
#[unsafe(no_mangle)]
pub extern "C" fn sambighjone_rest(image: &[f64], out: &mut [u32]) -> u32
    ensures { told result out.new ≡ asked (λ f. yes_or_no (rest_detected f) ∷ []) image.now out.old }
{
    sambighjone::ask::sambighjone_rest(image, out)
}

// Whether the magnetic field is disturbed: 0 or 1.
#[unsafe(no_mangle)]
pub extern "C" fn sambighjone_disturbed(image: &[f64], out: &mut [u32]) -> u32
    ensures { told result out.new ≡ asked (λ f. yes_or_no (mag_dist_detected f) ∷ []) image.now out.old }
{
    sambighjone::ask::sambighjone_disturbed(image, out)
}
