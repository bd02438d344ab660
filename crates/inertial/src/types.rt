// What the inertial half is made of.
ghost use Rattle.std.specs.Prelude.{◌≡◌};
ghost use Rattle.inertial.specs.Told.{state_of, with_state};
ghost use Rattle.inertial.specs.Setters.{with_params, with_rest_params};

use algebra::{Matrix, Vector};
use filters::{Channel, Coeffs};
use tilt::{Inclination, Rest, RestParams};

#[derive(Clone, Copy)]
pub struct BiasParams {
    pub motion_bias_est_enabled: bool,
    pub bias_sigma_init: f64,
    pub bias_forgetting_time: f64,
    pub bias_sigma_motion: f64,
    pub bias_vertical_forgetting_factor: f64,
    pub bias_sigma_rest: f64,
}

#[derive(Clone, Copy)]
pub struct InertialParams {
    pub tau_acc: f64,
    pub rest: RestParams,
    pub bias: BiasParams,
}

#[derive(Clone, Copy)]
pub struct BiasCoefficients {
    pub bias_p0: f64,
    pub bias_v: f64,
    pub bias_motion_w: f64,
    pub bias_vertical_w: f64,
    pub bias_rest_w: f64,
}

#[derive(Clone, Copy)]
pub struct InertialCoefficients {
    pub gyr_ts: f64,
    pub acc_ts: f64,
    pub acc_lp: Coeffs,
    pub rest_gyr_lp: Coeffs,
    pub rest_acc_lp: Coeffs,
    pub bias: BiasCoefficients,
}

#[derive(Clone, Copy)]
pub struct Bias {
    pub bias: Vector,
    pub bias_p: Matrix,
    pub motion_bias_est_rlp_state: [Channel; 9],
    pub motion_bias_est_bias_lp_state: [Channel; 2],
}

#[derive(Clone, Copy)]
pub struct InertialState {
    pub inclination: Inclination,
    pub bias: Bias,
    pub rest: Rest,
}

#[derive(Clone, Copy)]
pub struct Inertial {
    pub params: InertialParams,
    pub coeffs: InertialCoefficients,
    pub state: InertialState,
}

impl Inertial {
    pub(crate) fn with_groups(self, inclination: Inclination, bias: Bias, rest: Rest) -> Inertial
        ensures { result ≡ with_state self (state_of inclination bias rest) }
    {
        Inertial {
            state: InertialState {
                inclination,
                bias,
                rest,
            },
            ..self
        }
    }

    pub(crate) fn with_rest_params(self, rest: RestParams) -> Inertial
        ensures { result ≡ with_params self (with_rest_params self.params rest) }
    {
        Inertial {
            params: InertialParams {
                rest,
                ..self.params
            },
            ..self
        }
    }
}
