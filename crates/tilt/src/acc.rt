// What an accelerometer step does to rest and to the inclination.
ghost use Rattle.std.specs.Prelude.{◌≡◌};
ghost use Rattle.std.specs.Float.{binary64};
ghost use Rattle.tilt.specs.Acc.{acc_rest, acc_filtered, counted, finite_acc_rest, inclined, acc_lowpassed, acc_correction, finite_inclination};

use crate::rest::{broken, squared_deviation};
use crate::types::{Deviations, Inclination, Rest, RestParams};
use algebra::{Quaternion, Vector};
use filters::Coeffs;
use limits::Tried;

// The inclination after a sample, and the sample in the earth frame, of length 1, before the correction.
#[derive(Clone, Copy)]
pub struct TriedInclination {
    pub finite: bool,
    pub inclination: Inclination,
    pub acc_earth: Vector,
}

// Rest after an accelerometer sample.
#[tactic(auto, unfolding(crate::specs::Acc::acc_rest))]
pub fn acc_rest(rest: Rest, p: RestParams, ts: f64, coeffs: Coeffs, acc: Vector) -> Tried<Rest>
    ensures { result ≡ acc_rest binary64 rest p ts coeffs acc }
{
    if p.rest_bias_est_enabled {
        let f = acc_filtered(rest, p.rest_filter_tau, ts, coeffs, acc);
        let value = if f.rest_last_squared_deviations.1 >= p.rest_th_acc * p.rest_th_acc {
            broken(f)
        } else {
            counted(f, p.rest_min_t, ts)
        };
        Tried {
            finite: finite_acc_rest(value),
            value,
        }
    } else {
        Tried {
            finite: true,
            value: rest,
        }
    }
}

#[tactic(auto, unfolding(crate::specs::Acc::acc_filtered, filters::specs::Banks::filter_vec3))]
fn acc_filtered(rest: Rest, tau: f64, ts: f64, coeffs: Coeffs, acc: Vector) -> Rest
    ensures { result ≡ acc_filtered binary64 rest tau ts coeffs acc }
{
    let f = filters::filter_vec(acc.into(), tau, ts, coeffs, rest.rest_acc_lp_state);
    let y = Vector::from(f.y);
    let channels = f.channels;
    let deviation = squared_deviation(acc, y);
    Rest {
        rest_last_squared_deviations: Deviations(rest.rest_last_squared_deviations.0, deviation),
        rest_last_acc_lp: y,
        rest_acc_lp_state: channels,
        ..rest
    }
}

// A quiet sample's time is added.
#[tactic(auto, unfolding(crate::specs::Acc::counted))]
fn counted(rest: Rest, min_t: f64, ts: f64) -> Rest
    ensures { result ≡ counted binary64 rest min_t ts }
{
    let t = rest.rest_t + ts;
    Rest {
        rest_detected: (t >= min_t) | rest.rest_detected,
        rest_t: t,
        ..rest
    }
}

#[tactic(auto, unfolding(crate::specs::Acc::finite_acc_rest))]
fn finite_acc_rest(rest: Rest) -> bool
    ensures { result ≡ finite_acc_rest rest }
{
    floats::finite(rest.rest_last_squared_deviations.1)
        & floats::finite(rest.rest_t)
        & rest.rest_last_acc_lp.finite()
        & filters::finite_channels(rest.rest_acc_lp_state)
}

// The inclination correction.
#[tactic(auto, unfolding(crate::specs::Acc::inclined))]
pub fn inclined(i: Inclination, tau: f64, ts: f64, coeffs: Coeffs, acc: Vector) -> TriedInclination
    ensures { result ≡ inclined binary64 i tau ts coeffs acc }
{
    let lp = acc_lowpassed(i, tau, ts, coeffs, acc);
    let acc_earth = lp.acc_quat.rotate(lp.last_acc_lp).normalize();
    let inclination = Inclination {
        acc_quat: acc_correction(acc_earth).times(lp.acc_quat).normalize(),
        last_acc_corr_angular_rate: numbers::acos(acc_earth.2) / ts,
        ..lp
    };
    TriedInclination {
        finite: finite_inclination(inclination),
        inclination,
        acc_earth,
    }
}

// The sample in the frame of the gyro prediction, low-pass filtered.
#[tactic(auto, unfolding(crate::specs::Acc::acc_lowpassed, filters::specs::Banks::filter_vec3))]
fn acc_lowpassed(i: Inclination, tau: f64, ts: f64, coeffs: Coeffs, acc: Vector) -> Inclination
    ensures { result ≡ acc_lowpassed binary64 i tau ts coeffs acc }
{
    let acc_earth = i.gyr_quat.rotate(acc);
    let f = filters::filter_vec(acc_earth.into(), tau, ts, coeffs, i.acc_lp_state);
    let y = Vector::from(f.y);
    let channels = f.channels;
    Inclination {
        last_acc_lp: y,
        acc_lp_state: channels,
        ..i
    }
}

// The turn that brings acc_earth up.
#[tactic(auto, unfolding(crate::specs::Acc::acc_correction))]
fn acc_correction(acc_earth: Vector) -> Quaternion
    ensures { result ≡ acc_correction binary64 acc_earth }
{
    let q_w = numbers::sqrt((acc_earth.2 + 1.0) / 2.0);
    if q_w > 0.000001 {
        Quaternion(q_w, 0.5 * acc_earth.1 / q_w, -0.5 * acc_earth.0 / q_w, 0.0)
    } else {
        Quaternion(0.0, 1.0, 0.0, 0.0)
    }
}

#[tactic(auto, unfolding(crate::specs::Acc::finite_inclination))]
fn finite_inclination(i: Inclination) -> bool
    ensures { result ≡ finite_inclination i }
{
    i.acc_quat.finite()
        & i.last_acc_lp.finite()
        & filters::finite_channels(i.acc_lp_state)
        & floats::finite(i.last_acc_corr_angular_rate)
}
