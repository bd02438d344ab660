// The setters of the inertial half.
ghost use Rattle.std.specs.Prelude.{◌≡◌};
ghost use Rattle.std.specs.Float.{binary64};
ghost use Rattle.inertial.specs.Told.{told_of};
ghost use Rattle.inertial.specs.Setters.{adapted_bias, retuned, set_tau_acc, set_motion_bias_est_enabled, set_rest_bias_est_enabled, set_mag_dist_rejection_enabled, set_rest_detection_thresholds, variance, bias_taken, sigma_or_none_taken, with_estimate, set_bias_estimate, reset_state};

use crate::types::{
    Bias, BiasParams, Inertial, InertialCoefficients, InertialParams, InertialState,
};
use algebra::{Matrix, Vector};
use filters::{Channel, Coeffs};
use limits::{Answer, Updated, sample, setting};
use std::f64::consts::PI;
use tilt::angle::radians;
use tilt::setters::adapted_inclination;
use tilt::{Rest, RestParams};

impl Inertial {
    // How slowly the tilt follows the accelerometer, in seconds.
    #[inline(always)]
    #[tactic(auto, unfolding(crate::specs::Setters::set_tau_acc))]
    pub fn set_tau_acc(self, tau_acc: f64) -> Updated<Inertial>
        ensures { told_of result ≡ set_tau_acc binary64 self tau_acc }
    {
        if setting::tau_taken(self.coeffs.acc_ts, tau_acc) {
            if self.params.tau_acc == tau_acc {
                Updated {
                    answer: Answer::Done,
                    filter: self,
                }
            } else {
                self.retuned(tau_acc)
            }
        } else {
            Updated {
                answer: Answer::BadSetting,
                filter: self,
            }
        }
    }

    // The half with a new time constant, where all that it stores is finite.
    #[inline(always)]
    #[tactic(auto, unfolding(crate::specs::Setters::retuned))]
    fn retuned(self, tau_acc: f64) -> Updated<Inertial>
        ensures { told_of result ≡ retuned binary64 self tau_acc }
    {
        let old = self.coeffs.acc_lp;
        let new = filters::filter_coeffs(tau_acc, self.coeffs.acc_ts);
        let inclination = adapted_inclination(self.state.inclination, old, new);
        let bias = adapted_bias(self.state.bias, old, new);
        if filters::finite_coeffs(new)
            & filters::finite_channels(inclination.acc_lp_state)
            & filters::finite_channels(bias.motion_bias_est_rlp_state)
            & filters::finite_channels(bias.motion_bias_est_bias_lp_state)
        {
            Updated {
                answer: Answer::Done,
                filter: Inertial {
                    params: InertialParams {
                        tau_acc,
                        ..self.params
                    },
                    coeffs: InertialCoefficients {
                        acc_lp: new,
                        ..self.coeffs
                    },
                    state: InertialState {
                        inclination,
                        bias,
                        rest: self.state.rest,
                    },
                },
            }
        } else {
            Updated {
                answer: Answer::NotFinite,
                filter: self,
            }
        }
    }

    // A switch that changes restarts the two motion filters.
    #[tactic(auto, unfolding(crate::specs::Setters::set_motion_bias_est_enabled))]
    pub fn set_motion_bias_est_enabled(self, enabled: bool) -> Inertial
        ensures { result ≡ set_motion_bias_est_enabled self enabled }
    {
        if self.params.bias.motion_bias_est_enabled == enabled {
            self
        } else {
            Inertial {
                params: InertialParams {
                    bias: BiasParams {
                        motion_bias_est_enabled: enabled,
                        ..self.params.bias
                    },
                    ..self.params
                },
                state: InertialState {
                    bias: Bias {
                        motion_bias_est_rlp_state: [Channel::FRESH; 9],
                        motion_bias_est_bias_lp_state: [Channel::FRESH; 2],
                        ..self.state.bias
                    },
                    ..self.state
                },
                ..self
            }
        }
    }

    // A switch that changes makes the rest group fresh.
    #[tactic(auto, unfolding(crate::specs::Setters::set_rest_bias_est_enabled))]
    pub fn set_rest_bias_est_enabled(self, enabled: bool) -> Inertial
        ensures { result ≡ set_rest_bias_est_enabled binary64 self enabled }
    {
        if self.params.rest.rest_bias_est_enabled == enabled {
            self
        } else {
            let rest_params = RestParams {
                rest_bias_est_enabled: enabled,
                ..self.params.rest
            };
            self.with_rest_params(rest_params)
                .with_groups(self.state.inclination, self.state.bias, Rest::fresh())
        }
    }

    // The switch alone: what it makes fresh is magnetic.
    #[tactic(auto, unfolding(crate::specs::Setters::set_mag_dist_rejection_enabled))]
    pub fn set_mag_dist_rejection_enabled(self, enabled: bool) -> Inertial
        ensures { result ≡ set_mag_dist_rejection_enabled self enabled }
    {
        self.with_rest_params(RestParams {
            mag_dist_rejection_enabled: enabled,
            ..self.params.rest
        })
    }

    // The deviations from which a sample is not quiet: in °/s and in m/s².
    #[tactic(auto, unfolding(crate::specs::Setters::set_rest_detection_thresholds))]
    pub fn set_rest_detection_thresholds(self, th_gyr: f64, th_acc: f64) -> Updated<Inertial>
        ensures { told_of result ≡ set_rest_detection_thresholds binary64 self th_gyr th_acc }
    {
        if setting::threshold_taken(th_gyr) & setting::threshold_taken(th_acc) {
            let rest_params = RestParams {
                rest_th_gyr: th_gyr,
                rest_th_acc: th_acc,
                ..self.params.rest
            };
            Updated {
                answer: Answer::Done,
                filter: self.with_rest_params(rest_params),
            }
        } else {
            Updated {
                answer: Answer::BadSetting,
                filter: self,
            }
        }
    }

    // The gyro bias in rad/s, with a standard deviation in rad/s or the covariance that there is.
    #[tactic(auto, unfolding(crate::specs::Setters::set_bias_estimate))]
    pub fn set_bias_estimate(self, bias: Vector, sigma: Option<f64>) -> Updated<Inertial>
        ensures { told_of result ≡ set_bias_estimate binary64 self bias sigma }
    {
        if bias_taken(self.params.rest.bias_clip, bias) & sigma_or_none_taken(sigma) {
            let estimate = with_estimate(self.state.bias, bias, sigma);
            Updated {
                answer: Answer::Done,
                filter: self.with_groups(self.state.inclination, estimate, self.state.rest),
            }
        } else {
            Updated {
                answer: Answer::BadSetting,
                filter: self,
            }
        }
    }

    // The state of a filter just built with the settings as they are now.
    #[tactic(auto, unfolding(crate::specs::Setters::reset_state))]
    pub fn reset_state(self) -> Inertial
        ensures { result ≡ reset_state binary64 self }
    {
        Inertial {
            state: InertialState::fresh(self.coeffs.bias.bias_p0),
            ..self
        }
    }
}

// The last values of these two filters are not stored: the first memory is close to them.
#[tactic(auto, unfolding(crate::specs::Setters::adapted_bias))]
fn adapted_bias(b: Bias, old: Coeffs, new: Coeffs) -> Bias
    ensures { result ≡ adapted_bias binary64 b old new }
{
    let rlp = b.motion_bias_est_rlp_state;
    let lp = b.motion_bias_est_bias_lp_state;
    Bias {
        motion_bias_est_rlp_state: filters::adapted(filters::first_numbers(rlp), old, new, rlp),
        motion_bias_est_bias_lp_state: filters::adapted(filters::first_numbers(lp), old, new, lp),
        ..b
    }
}

// Each component within the filter's own clip, worked out as the gyro step works it out.
fn bias_taken(clip: f64, bias: Vector) -> bool
    ensures { result ≡ bias_taken binary64 clip bias }
{
    sample::all_within(radians(clip), bias)
}

#[tactic(auto, unfolding(crate::specs::Setters::sigma_or_none_taken))]
fn sigma_or_none_taken(sigma: Option<f64>) -> bool
    ensures { result ≡ sigma_or_none_taken binary64 sigma }
{
    match sigma {
        None => true,
        Some(s) => setting::sigma_taken(s),
    }
}

#[tactic(auto, unfolding(crate::specs::Setters::with_estimate))]
fn with_estimate(b: Bias, bias: Vector, sigma: Option<f64>) -> Bias
    ensures { result ≡ with_estimate binary64 b bias sigma }
{
    let bias_p = match sigma {
        None => b.bias_p,
        Some(s) => Matrix::diagonal(variance(s)),
    };
    Bias { bias, bias_p, ..b }
}

#[tactic(auto, unfolding(crate::specs::Setters::variance))]
fn variance(sigma: f64) -> f64
    ensures { result ≡ variance binary64 sigma }
{
    let s = sigma * (180.0 * 100.0 / PI);
    s * s
}
