// The calls that take a sample.
ghost use Rattle.std.specs.Prelude.{◌≡◌};
ghost use Rattle.std.specs.Float.{binary64};
ghost use Rattle.algebra.specs.Vectors.{vector};
ghost use Rattle.limits.specs.Answers.{told};
ghost use Rattle.vqf.specs.Update.{update_gyr, update_gyr_with_ts, update_acc, update_mag};
ghost use Rattle.sambighjone.specs.Calls.{fed};

use crate::kept::fed;
use algebra::Vector;

// One gyroscope sample.
pub fn sambighjone_feed_gyr(image: &mut [f64], x: f64, y: f64, z: f64) -> u32
    ensures { told result image.new ≡ fed (λ f. update_gyr binary64 f (vector x y z)) image.old }
{
    fed(image, |f| f.update_gyr(Vector(x, y, z)))
}

// One gyroscope sample, with the time since the one before.
pub fn sambighjone_feed_gyr_with_ts(image: &mut [f64], x: f64, y: f64, z: f64, ts: f64) -> u32
    ensures { told result image.new ≡ fed (λ f. update_gyr_with_ts binary64 f (vector x y z) ts) image.old }
{
    fed(image, |f| f.update_gyr_with_ts(Vector(x, y, z), ts))
}

// One accelerometer sample.
pub fn sambighjone_feed_acc(image: &mut [f64], x: f64, y: f64, z: f64) -> u32
    ensures { told result image.new ≡ fed (λ f. update_acc binary64 f (vector x y z)) image.old }
{
    fed(image, |f| f.update_acc(Vector(x, y, z)))
}

// One magnetometer sample.
pub fn sambighjone_feed_mag(image: &mut [f64], x: f64, y: f64, z: f64) -> u32
    ensures { told result image.new ≡ fed (λ f. update_mag binary64 f (vector x y z)) image.old }
{
    fed(image, |f| f.update_mag(Vector(x, y, z)))
}
