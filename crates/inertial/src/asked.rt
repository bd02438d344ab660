// What the inertial half answers when asked.
ghost use Rattle.std.specs.Prelude.{◌≡◌};
ghost use Rattle.std.specs.Float.{binary64};
ghost use Rattle.inertial.specs.Asked.{quat_3d, quat_6d, bias_estimate, row_sum, relative_rest_deviations};

use crate::types::Inertial;
use algebra::{Quaternion, Vector};
use std::f64::consts::PI;
use tilt::Deviations;

// A bias and its uncertainty in the worst direction.
#[derive(Clone, Copy)]
pub struct BiasEstimate {
    pub bias: Vector,
    pub sigma: f64,
}

impl Inertial {
    // The orientation by the gyroscope alone.
    pub fn quat_3d(self) -> Quaternion
        ensures { result ≡ quat_3d self }
    {
        self.state.inclination.gyr_quat
    }

    // The orientation by gyroscope and accelerometer.
    pub fn quat_6d(self) -> Quaternion
        ensures { result ≡ quat_6d binary64 self }
    {
        tilt::asked::quat_6d(self.state.inclination)
    }

    // The largest row sum bounds the largest eigenvalue.
    #[tactic(auto, unfolding(crate::specs::Asked::bias_estimate))]
    pub fn bias_estimate(self) -> BiasEstimate
        ensures { result ≡ bias_estimate binary64 self }
    {
        let m = self.state.bias.bias_p;
        let sum1 = row_sum(m.m00, m.m01, m.m02);
        let sum2 = row_sum(m.m10, m.m11, m.m12);
        let sum3 = row_sum(m.m20, m.m21, m.m22);
        let most = floats::larger(floats::larger(sum1, sum2), sum3);
        let p = floats::smaller(most, self.coeffs.bias.bias_p0);
        BiasEstimate {
            bias: self.state.bias.bias,
            sigma: numbers::sqrt(p) * (PI / 100.0 / 180.0),
        }
    }

    // The last deviation of a gyro and of an accelerometer sample, each divided by its threshold.
    pub fn relative_rest_deviations(self) -> Deviations
        ensures { result ≡ relative_rest_deviations binary64 self }
    {
        tilt::asked::relative_rest_deviations(self.state.rest, self.params.rest)
    }
}

#[tactic(auto, unfolding(crate::specs::Asked::row_sum))]
fn row_sum(x: f64, y: f64, z: f64) -> f64
    ensures { result ≡ row_sum binary64 x y z }
{
    floats::magnitude(x) + floats::magnitude(y) + floats::magnitude(z)
}
