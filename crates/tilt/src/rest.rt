// What both steps do to the rest group.
ghost use Rattle.std.specs.Prelude.{◌≡◌};
ghost use Rattle.std.specs.Float.{binary64};
ghost use Rattle.tilt.specs.Rest.{squared_deviation, broken};

use crate::types::Rest;
use algebra::Vector;

// The square of the distance between a sample and its smoothed value.
#[tactic(auto, unfolding(crate::specs::Rest::squared_deviation))]
pub fn squared_deviation(x: Vector, lp: Vector) -> f64
    ensures { result ≡ squared_deviation binary64 x lp }
{
    let d0 = x.0 - lp.0;
    let d1 = x.1 - lp.1;
    let d2 = x.2 - lp.2;
    d0 * d0 + d1 * d1 + d2 * d2
}

// Rest after a sample that is not quiet.
#[tactic(auto, unfolding(crate::specs::Rest::broken))]
pub fn broken(rest: Rest) -> Rest
    ensures { result ≡ broken binary64 rest }
{
    Rest {
        rest_detected: false,
        rest_t: 0.0,
        ..rest
    }
}
