// A sample of each sensor in one call.
ghost use Rattle.std.specs.Prelude.{◌≡◌};
ghost use Rattle.limits.specs.Answers.{told};
ghost use Rattle.sambighjone.specs.Calls.{updated};

// The gyroscope's and the accelerometer's three numbers, and the magnetometer's or none.
#[unsafe(no_mangle)]
pub extern "C" fn sambighjone_update(image: &mut [f64], samples: &[f64], answers: &mut [u32]) -> u32
    ensures { told result (image.new, answers.new) ≡ updated samples.now image.old answers.old }
{
    sambighjone::update::sambighjone_update(image, samples, answers)
}
