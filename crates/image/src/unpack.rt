// An image into a filter, group by group.
ghost use Rattle.std.specs.Prelude.{◌≡◌, ◌+◌, ◌*◌, ◌≤◌, take};
ghost use Rattle.image.specs.Unpack.{vector, quaternion, matrix, coeffs, smoothing, channel_at, channels, inertial_params, magnetic_params, read_params, inertial_coeffs, magnetic_coeffs, inclination, bias, rest, magnetic_state, inertial, magnetic, read};
ghost use Rattle.image.specs.Image.{unpack, params};

use crate::marks::{channel, on};
use crate::{SETTINGS, SIZE};
use algebra::{Matrix, Quaternion, Vector};
use filters::{Channel, Coeffs};
use inertial::types::{Bias, BiasCoefficients, BiasParams};
use inertial::{Inertial, InertialCoefficients, InertialParams, InertialState};
use magnetic::types::{Field, Heading, NormDip};
use magnetic::{Magnetic, MagneticCoefficients, MagneticParams, MagneticState};
use tilt::{Deviations, Inclination, Rest, RestParams};
use vqf::{Params, VQF};

fn vector(s: &[f64; SIZE], at: usize) -> Vector
    requires { at + 3 ≤ SIZE }
    ensures { result ≡ vector s.now at }
{
    Vector(s[at], s[at + 1], s[at + 2])
}

fn quaternion(s: &[f64; SIZE], at: usize) -> Quaternion
    requires { at + 4 ≤ SIZE }
    ensures { result ≡ quaternion s.now at }
{
    Quaternion(s[at], s[at + 1], s[at + 2], s[at + 3])
}

fn matrix(s: &[f64; SIZE], at: usize) -> Matrix
    requires { at + 9 ≤ SIZE }
    ensures { result ≡ matrix s.now at }
{
    Matrix {
        m00: s[at],
        m01: s[at + 1],
        m02: s[at + 2],
        m10: s[at + 3],
        m11: s[at + 4],
        m12: s[at + 5],
        m20: s[at + 6],
        m21: s[at + 7],
        m22: s[at + 8],
    }
}

fn coeffs(s: &[f64; SIZE], at: usize) -> Coeffs
    requires { at + 5 ≤ SIZE }
    ensures { result ≡ coeffs s.now at }
{
    Coeffs {
        b0: s[at],
        b1: s[at + 1],
        b2: s[at + 2],
        a1: s[at + 3],
        a2: s[at + 4],
    }
}

fn smoothing(s: &[f64; SIZE], at: usize) -> Option<Coeffs>
    requires { at + 6 ≤ SIZE }
    ensures { result ≡ smoothing s.now at }
{
    if on(s[at]) {
        Some(coeffs(s, at + 1))
    } else {
        None
    }
}

fn channel_at(s: &[f64; SIZE], at: usize) -> Channel
    requires { at + 3 ≤ SIZE }
    ensures { result ≡ channel_at s.now at }
{
    channel(s[at], s[at + 1], s[at + 2])
}

// The bank at a place.
fn channels<const N: usize>(s: &[f64; SIZE], at: usize) -> [Channel; N]
    requires { at + 3 * N ≤ SIZE }
    ensures { result ≡ channels N s.now at }
{
    std::array::from_fn(|i| channel_at(s, at + 3 * i))
}

// The settings, with which an image begins.
fn settings(s: &[f64; SIZE]) -> &[f64; SETTINGS]
    ensures { result.now ≡ take SETTINGS s.now }
{
    s.first_chunk().unwrap()
}

#[tactic(auto, unfolding(crate::specs::Unpack::inertial_params))]
fn inertial_params(s: &[f64; SETTINGS]) -> InertialParams
    ensures { result ≡ inertial_params s.now }
{
    let rest = RestParams {
        rest_bias_est_enabled: on(s[1]),
        mag_dist_rejection_enabled: on(s[2]),
        bias_clip: s[3],
        rest_min_t: s[4],
        rest_filter_tau: s[5],
        rest_th_gyr: s[6],
        rest_th_acc: s[7],
    };
    let bias = BiasParams {
        motion_bias_est_enabled: on(s[8]),
        bias_sigma_init: s[9],
        bias_forgetting_time: s[10],
        bias_sigma_motion: s[11],
        bias_vertical_forgetting_factor: s[12],
        bias_sigma_rest: s[13],
    };
    InertialParams {
        tau_acc: s[0],
        rest,
        bias,
    }
}

#[tactic(auto, unfolding(crate::specs::Unpack::magnetic_params))]
fn magnetic_params(s: &[f64; SETTINGS]) -> MagneticParams
    ensures { result ≡ magnetic_params s.now }
{
    MagneticParams {
        tau_mag: s[14],
        mag_current_tau: s[15],
        mag_ref_tau: s[16],
        mag_norm_th: s[17],
        mag_dip_th: s[18],
        mag_new_time: s[19],
        mag_new_first_time: s[20],
        mag_new_min_gyr: s[21],
        mag_min_undisturbed_time: s[22],
        mag_max_rejection_time: s[23],
        mag_rejection_factor: s[24],
    }
}

#[tactic(auto, unfolding(crate::specs::Unpack::inertial_coeffs))]
fn inertial_coeffs(s: &[f64; SIZE]) -> InertialCoefficients
    ensures { result ≡ inertial_coeffs s.now }
{
    let bias = BiasCoefficients {
        bias_p0: s[42],
        bias_v: s[43],
        bias_motion_w: s[44],
        bias_vertical_w: s[45],
        bias_rest_w: s[46],
    };
    InertialCoefficients {
        gyr_ts: s[25],
        acc_ts: s[26],
        acc_lp: coeffs(s, 27),
        rest_gyr_lp: coeffs(s, 32),
        rest_acc_lp: coeffs(s, 37),
        bias,
    }
}

#[tactic(auto, unfolding(crate::specs::Unpack::magnetic_coeffs))]
fn magnetic_coeffs(s: &[f64; SIZE]) -> MagneticCoefficients
    ensures { result ≡ magnetic_coeffs s.now }
{
    MagneticCoefficients {
        mag_ts: s[47],
        k_mag: s[48],
        k_mag_ref: s[49],
        mag_norm_dip_lp: smoothing(s, 50),
    }
}

#[tactic(auto, unfolding(crate::specs::Unpack::inclination))]
fn inclination(s: &[f64; SIZE]) -> Inclination
    ensures { result ≡ inclination s.now }
{
    Inclination {
        gyr_quat: quaternion(s, 56),
        acc_quat: quaternion(s, 60),
        last_acc_lp: vector(s, 64),
        acc_lp_state: channels(s, 68),
        last_acc_corr_angular_rate: s[67],
    }
}

#[tactic(auto, unfolding(crate::specs::Unpack::bias))]
fn bias(s: &[f64; SIZE]) -> Bias
    ensures { result ≡ bias s.now }
{
    Bias {
        bias: vector(s, 77),
        bias_p: matrix(s, 80),
        motion_bias_est_rlp_state: channels(s, 89),
        motion_bias_est_bias_lp_state: channels(s, 116),
    }
}

#[tactic(auto, unfolding(crate::specs::Unpack::rest))]
fn rest(s: &[f64; SIZE]) -> Rest
    ensures { result ≡ rest s.now }
{
    Rest {
        rest_detected: on(s[122]),
        rest_last_squared_deviations: Deviations(s[123], s[124]),
        rest_t: s[125],
        rest_last_gyr_lp: vector(s, 126),
        rest_gyr_lp_state: channels(s, 132),
        rest_last_acc_lp: vector(s, 129),
        rest_acc_lp_state: channels(s, 141),
    }
}

#[tactic(auto, unfolding(crate::specs::Unpack::magnetic_state))]
fn magnetic_state(s: &[f64; SIZE]) -> MagneticState
    ensures { result ≡ magnetic_state s.now }
{
    let heading = Heading {
        delta: s[150],
        k_mag_init: s[151],
        last_mag_dis_angle: s[152],
        last_mag_corr_angular_rate: s[153],
    };
    let field = Field {
        mag_dist_detected: on(s[154]),
        mag_ref_norm: s[155],
        mag_ref_dip: s[156],
        mag_undisturbed_t: s[157],
        mag_reject_t: s[158],
        mag_candidate_norm: s[159],
        mag_candidate_dip: s[160],
        mag_candidate_t: s[161],
        mag_norm_dip: NormDip(s[162], s[163]),
        mag_norm_dip_lp_state: channels(s, 164),
    };
    MagneticState { heading, field }
}

fn read_params(s: &[f64; SETTINGS]) -> Params
    ensures { result ≡ read_params s.now }
{
    Params {
        inertial: inertial_params(s),
        magnetic: magnetic_params(s),
    }
}

#[tactic(auto, using(crate::proofs::Settings::inertial_settings))]
fn read_inertial(s: &[f64; SIZE]) -> Inertial
    ensures { result ≡ inertial s.now }
{
    Inertial {
        params: inertial_params(settings(s)),
        coeffs: inertial_coeffs(s),
        state: InertialState {
            inclination: inclination(s),
            bias: bias(s),
            rest: rest(s),
        },
    }
}

#[tactic(auto, using(crate::proofs::Settings::magnetic_settings))]
fn read_magnetic(s: &[f64; SIZE]) -> Magnetic
    ensures { result ≡ magnetic s.now }
{
    Magnetic {
        params: magnetic_params(settings(s)),
        coeffs: magnetic_coeffs(s),
        state: magnetic_state(s),
    }
}

pub(crate) fn read(s: &[f64; SIZE]) -> VQF
    ensures { result ≡ read s.now }
{
    VQF {
        inertial: read_inertial(s),
        magnetic: read_magnetic(s),
    }
}

// The filter of an image of SIZE numbers; of any other, the fresh house filter.
#[tactic(auto, unfolding(crate::specs::Image::unpack))]
pub fn unpack(image: &[f64]) -> VQF
    ensures { result ≡ unpack image.now }
{
    match image.as_array() {
        Some(numbers) => read(numbers),
        None => VQF::fresh(),
    }
}

// The settings that SETTINGS numbers give, in the order in which an image has them; any other number of
// them gives the house settings.
#[tactic(auto, unfolding(crate::specs::Image::params))]
pub fn params(settings: &[f64]) -> Params
    ensures { result ≡ params settings.now }
{
    match settings.as_array() {
        Some(numbers) => read_params(numbers),
        None => Params::house(),
    }
}
