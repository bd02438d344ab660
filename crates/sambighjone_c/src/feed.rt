// The calls that take a sample.
ghost use Rattle.std.specs.Prelude.{◌≡◌};
ghost use Rattle.std.specs.Float.{binary64};
ghost use Rattle.algebra.specs.Vectors.{vector};
ghost use Rattle.limits.specs.Answers.{told};
ghost use Rattle.vqf.specs.Update.{update_gyr, update_gyr_with_ts, update_acc, update_mag};
ghost use Rattle.sambighjone.specs.Calls.{fed};

// One gyroscope sample.
#[unsafe(no_mangle)]
pub extern "C" fn sambighjone_feed_gyr(image: &mut [f64], x: f64, y: f64, z: f64) -> u32
    ensures { told result image.new ≡ fed (λ f. update_gyr binary64 f (vector x y z)) image.old }
{
    sambighjone::feed::sambighjone_feed_gyr(image, x, y, z)
}

// One gyroscope sample, with the time since the one before.
#[unsafe(no_mangle)]
pub extern "C" fn sambighjone_feed_gyr_with_ts(
    image: &mut [f64],
    x: f64,
    y: f64,
    z: f64,
    ts: f64,
) -> u32
    ensures { told result image.new ≡ fed (λ f. update_gyr_with_ts binary64 f (vector x y z) ts) image.old }
{
    sambighjone::feed::sambighjone_feed_gyr_with_ts(image, x, y, z, ts)
}

// One accelerometer sample.
#[unsafe(no_mangle)]
pub extern "C" fn sambighjone_feed_acc(image: &mut [f64], x: f64, y: f64, z: f64) -> u32
    ensures { told result image.new ≡ fed (λ f. update_acc binary64 f (vector x y z)) image.old }
{
    sambighjone::feed::sambighjone_feed_acc(image, x, y, z)
}

// One magnetometer sample.
#[unsafe(no_mangle)]
pub extern "C" fn sambighjone_feed_mag(image: &mut [f64], x: f64, y: f64, z: f64) -> u32
    ensures { told result image.new ≡ fed (λ f. update_mag binary64 f (vector x y z)) image.old }
{
    sambighjone::feed::sambighjone_feed_mag(image, x, y, z)
}
