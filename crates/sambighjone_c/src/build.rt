// The calls that make a filter.
ghost use Rattle.std.specs.Prelude.{◌≡◌};
ghost use Rattle.std.specs.Float.{binary64};
ghost use Rattle.limits.specs.Answers.{told};
ghost use Rattle.vqf.specs.Build.{fresh};
ghost use Rattle.sambighjone.specs.Calls.{fed, built};

// The house filter.
#[unsafe(no_mangle)]
pub extern "C" fn sambighjone_fresh(image: &mut [f64]) -> u32
    ensures { told result image.new ≡ fed (λ f. told 0 (fresh binary64)) image.old }
{
    sambighjone::build::sambighjone_fresh(image)
}

// A filter with intervals and settings of its own.
#[unsafe(no_mangle)]
pub extern "C" fn sambighjone_build(
    image: &mut [f64],
    gyr_ts: f64,
    acc_ts: f64,
    mag_ts: f64,
    settings: &[f64],
) -> u32
    ensures { told result image.new ≡ built gyr_ts acc_ts mag_ts settings.now image.old }
{
    sambighjone::build::sambighjone_build(image, gyr_ts, acc_ts, mag_ts, settings)
}
