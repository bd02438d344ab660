// The coefficients and the fresh state of settings, and which settings are taken.
ghost use Rattle.std.specs.Prelude.{◌≡◌};
ghost use Rattle.std.specs.Float.{binary64};
ghost use Rattle.inertial.specs.Setup.{house, bias_params_taken, taken, bias_coefficients, setup, fresh_state, new};

use crate::types::{
    Bias, BiasCoefficients, BiasParams, Inertial, InertialCoefficients, InertialParams,
    InertialState,
};
use algebra::{Matrix, Vector};
use filters::Channel;
use limits::{sample, setting};
use tilt::setup::rest_params_taken;
use tilt::{Inclination, Rest, RestParams};

impl InertialParams {
    pub const HOUSE: InertialParams = InertialParams {
        tau_acc: 3.0,
        rest: RestParams {
            rest_bias_est_enabled: true,
            mag_dist_rejection_enabled: true,
            bias_clip: 2.0,
            rest_min_t: 1.5,
            rest_filter_tau: 0.5,
            rest_th_gyr: 2.0,
            rest_th_acc: 0.5,
        },
        bias: BiasParams {
            motion_bias_est_enabled: true,
            bias_sigma_init: 0.5,
            bias_forgetting_time: 100.0,
            bias_sigma_motion: 0.1,
            bias_vertical_forgetting_factor: 0.0001,
            bias_sigma_rest: 0.03,
        },
    };

    // The house settings.
    #[tactic(auto, unfolding(crate::specs::Setup::house))]
    pub fn house() -> InertialParams
        ensures { result ≡ house binary64 }
    {
        InertialParams::HOUSE
    }
}

// Whether the intervals and the settings are within their limits.
#[tactic(auto, unfolding(crate::specs::Setup::taken))]
pub fn taken(p: InertialParams, gyr_ts: f64, acc_ts: f64) -> bool
    ensures { result ≡ taken binary64 p gyr_ts acc_ts }
{
    sample::interval_taken(gyr_ts)
        & sample::interval_taken(acc_ts)
        & setting::tau_taken(acc_ts, p.tau_acc)
        & rest_params_taken(p.rest, gyr_ts, acc_ts)
        & bias_params_taken(p.bias)
}

#[tactic(auto, unfolding(crate::specs::Setup::bias_params_taken))]
fn bias_params_taken(p: BiasParams) -> bool
    ensures { result ≡ bias_params_taken binary64 p }
{
    setting::sigma_taken(p.bias_sigma_init)
        & setting::forgetting_time_taken(p.bias_forgetting_time)
        & setting::sigma_taken(p.bias_sigma_motion)
        & setting::vertical_factor_taken(p.bias_vertical_forgetting_factor)
        & setting::sigma_taken(p.bias_sigma_rest)
}

impl Inertial {
    // The half that settings and intervals within their limits give.
    #[tactic(auto, unfolding(crate::specs::Setup::new))]
    pub fn new(params: InertialParams, gyr_ts: f64, acc_ts: f64) -> Inertial
        ensures { result ≡ new binary64 params gyr_ts acc_ts }
    {
        let coeffs = setup(params, gyr_ts, acc_ts);
        Inertial {
            params,
            coeffs,
            state: InertialState::fresh(coeffs.bias.bias_p0),
        }
    }
}

#[tactic(auto, unfolding(crate::specs::Setup::setup))]
fn setup(p: InertialParams, gyr_ts: f64, acc_ts: f64) -> InertialCoefficients
    ensures { result ≡ setup binary64 p gyr_ts acc_ts }
{
    InertialCoefficients {
        gyr_ts,
        acc_ts,
        acc_lp: filters::filter_coeffs(p.tau_acc, acc_ts),
        rest_gyr_lp: filters::filter_coeffs(p.rest.rest_filter_tau, gyr_ts),
        rest_acc_lp: filters::filter_coeffs(p.rest.rest_filter_tau, acc_ts),
        bias: bias_coefficients(p.bias, acc_ts),
    }
}

#[tactic(auto, unfolding(crate::specs::Setup::bias_coefficients))]
fn bias_coefficients(p: BiasParams, acc_ts: f64) -> BiasCoefficients
    ensures { result ≡ bias_coefficients binary64 p acc_ts }
{
    let init = p.bias_sigma_init * 100.0;
    // the variance grows from 0 to the square of 0.1 degrees per second in the forgetting time
    let grown = 0.1 * 100.0;
    let bias_v = grown * grown * acc_ts / p.bias_forgetting_time;
    let motion = p.bias_sigma_motion * 100.0;
    let p_motion = motion * motion;
    let bias_motion_w = p_motion * p_motion / bias_v + p_motion;
    let factor = floats::larger(p.bias_vertical_forgetting_factor, 0.0000000001);
    let rest = p.bias_sigma_rest * 100.0;
    let p_rest = rest * rest;
    BiasCoefficients {
        bias_p0: init * init,
        bias_v,
        bias_motion_w,
        bias_vertical_w: bias_motion_w / factor,
        bias_rest_w: p_rest * p_rest / bias_v + p_rest,
    }
}

impl InertialState {
    // Before the first sample.
    #[tactic(auto, unfolding(crate::specs::Setup::fresh_state))]
    pub fn fresh(bias_p0: f64) -> InertialState
        ensures { result ≡ fresh_state binary64 bias_p0 }
    {
        InertialState {
            inclination: Inclination::fresh(),
            bias: Bias {
                bias: Vector::ZERO,
                bias_p: Matrix::diagonal(bias_p0),
                motion_bias_est_rlp_state: [Channel::FRESH; 9],
                motion_bias_est_bias_lp_state: [Channel::FRESH; 2],
            },
            rest: Rest::fresh(),
        }
    }
}
