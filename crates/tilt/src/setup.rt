// Which settings of rest are taken, and the fresh groups.
ghost use Rattle.std.specs.Prelude.{◌≡◌};
ghost use Rattle.std.specs.Float.{binary64};
ghost use Rattle.tilt.specs.Setup.{rest_params_taken, fresh_rest, fresh_inclination};

use crate::types::{Deviations, Inclination, Rest, RestParams};
use algebra::{Quaternion, Vector};
use filters::Channel;
use limits::setting;

// Whether all these settings are within their limits; the intervals are in seconds.
#[tactic(auto, unfolding(crate::specs::Setup::rest_params_taken))]
pub fn rest_params_taken(p: RestParams, gyr_ts: f64, acc_ts: f64) -> bool
    ensures { result ≡ rest_params_taken binary64 p gyr_ts acc_ts }
{
    setting::threshold_taken(p.bias_clip)
        & setting::duration_taken(p.rest_min_t)
        & setting::tau_taken(floats::larger(gyr_ts, acc_ts), p.rest_filter_tau)
        & setting::threshold_taken(p.rest_th_gyr)
        & setting::threshold_taken(p.rest_th_acc)
}

impl Rest {
    // Before the first sample.
    #[tactic(auto, unfolding(crate::specs::Setup::fresh_rest))]
    pub fn fresh() -> Rest
        ensures { result ≡ fresh_rest binary64 }
    {
        Rest {
            rest_detected: false,
            rest_last_squared_deviations: Deviations(0.0, 0.0),
            rest_t: 0.0,
            rest_last_gyr_lp: Vector::ZERO,
            rest_gyr_lp_state: [Channel::FRESH; 3],
            rest_last_acc_lp: Vector::ZERO,
            rest_acc_lp_state: [Channel::FRESH; 3],
        }
    }
}

impl Inclination {
    // Before the first sample.
    #[tactic(auto, unfolding(crate::specs::Setup::fresh_inclination))]
    pub fn fresh() -> Inclination
        ensures { result ≡ fresh_inclination binary64 }
    {
        Inclination {
            gyr_quat: Quaternion::IDENTITY,
            acc_quat: Quaternion::IDENTITY,
            last_acc_lp: Vector::ZERO,
            acc_lp_state: [Channel::FRESH; 3],
            last_acc_corr_angular_rate: 0.0,
        }
    }
}
