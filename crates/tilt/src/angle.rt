ghost use Rattle.std.specs.Prelude.{◌≡◌};
ghost use Rattle.std.specs.Float.{binary64};
ghost use Rattle.tilt.specs.Scalars.{radians};

use std::f64::consts::PI;

// An angle or a rate in degrees, in radians.
pub fn radians(degrees: f64) -> f64
    ensures { result ≡ radians binary64 degrees }
{
    degrees * (PI / 180.0)
}
