// The gyro step.
ghost use Rattle.std.specs.Prelude.{◌≡◌};
ghost use Rattle.std.specs.Float.{binary64};
ghost use Rattle.inertial.specs.Told.{told_of};
ghost use Rattle.inertial.specs.Gyr.{update_gyr_with_ts, update_gyr};

use crate::types::Inertial;
use algebra::Vector;
use limits::Updated;
use tilt::Inclination;
use tilt::gyr::BeforeGyr;

impl Inertial {
    // A gyro sample in rad/s.
    pub fn update_gyr(self, gyr: Vector) -> Updated<Inertial>
        ensures { told_of result ≡ update_gyr binary64 self gyr }
    {
        self.update_gyr_with_ts(gyr, self.coeffs.gyr_ts)
    }

    // A gyro sample in rad/s that lasted ts seconds.
    #[tactic(auto, unfolding(crate::specs::Gyr::update_gyr_with_ts))]
    pub fn update_gyr_with_ts(self, gyr: Vector, ts: f64) -> Updated<Inertial>
        ensures { told_of result ≡ update_gyr_with_ts binary64 self gyr ts }
    {
        let before = BeforeGyr {
            rest: self.state.rest,
            params: self.params.rest,
            gyr_ts: self.coeffs.gyr_ts,
            coeffs: self.coeffs.rest_gyr_lp,
            quat: self.state.inclination.gyr_quat,
            bias: self.state.bias.bias,
        };
        let u = before.update(gyr, ts);
        let inclination = Inclination {
            gyr_quat: u.quat,
            ..self.state.inclination
        };
        Updated {
            answer: u.answer,
            filter: self.with_groups(inclination, self.state.bias, u.rest),
        }
    }
}
