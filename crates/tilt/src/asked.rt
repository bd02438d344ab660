// What the groups answer when asked.
ghost use Rattle.std.specs.Prelude.{◌≡◌};
ghost use Rattle.std.specs.Float.{binary64};
ghost use Rattle.tilt.specs.Asked.{quat_6d, relative_rest_deviations};

use crate::angle::radians;
use crate::types::{Deviations, Inclination, Rest, RestParams};
use algebra::Quaternion;

// The orientation by gyroscope and accelerometer.
#[tactic(auto, unfolding(crate::specs::Asked::quat_6d))]
pub fn quat_6d(i: Inclination) -> Quaternion
    ensures { result ≡ quat_6d binary64 i }
{
    i.acc_quat.times(i.gyr_quat)
}

// The last deviation of a gyro and of an accelerometer sample, each divided by its threshold.
#[tactic(auto, unfolding(crate::specs::Asked::relative_rest_deviations))]
pub fn relative_rest_deviations(rest: Rest, p: RestParams) -> Deviations
    ensures { result ≡ relative_rest_deviations binary64 rest p }
{
    let d = rest.rest_last_squared_deviations;
    Deviations(
        numbers::sqrt(d.0) / radians(p.rest_th_gyr),
        numbers::sqrt(d.1) / p.rest_th_acc,
    )
}
