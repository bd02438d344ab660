// A filter into an image, group by group.
ghost use Rattle.std.specs.Prelude.{◌≡◌, ◌+◌, ◌*◌, ◌≤◌, length};
ghost use Rattle.image.specs.Put.{put};
ghost use Rattle.image.specs.Marks.{marked};
ghost use Rattle.image.specs.Pack.{triple, channels, inertial_coeffs, magnetic_coeffs, inclination, bias, rest, magnetic_state, all_params, all_coeffs, all_inclination, all_bias, all_rest, all_magnetic_state, pack};
ghost use Rattle.image.specs.Image.{written, packed};

use crate::marks::{flag, marked};
use crate::{SETTINGS, SIZE};
use filters::Channel;
use inertial::InertialCoefficients;
use inertial::types::Bias;
use magnetic::{MagneticCoefficients, MagneticState};
use tilt::{Inclination, Rest};
use vqf::{Params, VQF};

// An image that has another length than SIZE.
#[derive(Clone, Copy, PartialEq, Eq)]
pub struct WrongLength;

fn triple(c: Channel) -> [f64; 3]
    ensures { result ≡ triple (marked c) }
{
    let m = marked(c);
    [m.0, m.1, m.2]
}

// The settings as numbers, in the order in which an image has them.
#[tactic(auto, unfolding(crate::specs::Pack::all_params, crate::specs::Pack::inertial_params, crate::specs::Pack::magnetic_params))]
pub fn settings(p: Params) -> [f64; SETTINGS]
    ensures { result ≡ all_params p.inertial p.magnetic }
{
    let i = p.inertial;
    let m = p.magnetic;
    [
        i.tau_acc,
        flag(i.rest.rest_bias_est_enabled),
        flag(i.rest.mag_dist_rejection_enabled),
        i.rest.bias_clip,
        i.rest.rest_min_t,
        i.rest.rest_filter_tau,
        i.rest.rest_th_gyr,
        i.rest.rest_th_acc,
        flag(i.bias.motion_bias_est_enabled),
        i.bias.bias_sigma_init,
        i.bias.bias_forgetting_time,
        i.bias.bias_sigma_motion,
        i.bias.bias_vertical_forgetting_factor,
        i.bias.bias_sigma_rest,
        m.tau_mag,
        m.mag_current_tau,
        m.mag_ref_tau,
        m.mag_norm_th,
        m.mag_dip_th,
        m.mag_new_time,
        m.mag_new_first_time,
        m.mag_new_min_gyr,
        m.mag_min_undisturbed_time,
        m.mag_max_rejection_time,
        m.mag_rejection_factor,
    ]
}

#[tactic(auto, unfolding(crate::specs::Pack::inertial_coeffs))]
fn inertial_coeffs(k: InertialCoefficients) -> [f64; 22]
    ensures { result ≡ inertial_coeffs k }
{
    [
        k.gyr_ts,
        k.acc_ts,
        k.acc_lp.b0,
        k.acc_lp.b1,
        k.acc_lp.b2,
        k.acc_lp.a1,
        k.acc_lp.a2,
        k.rest_gyr_lp.b0,
        k.rest_gyr_lp.b1,
        k.rest_gyr_lp.b2,
        k.rest_gyr_lp.a1,
        k.rest_gyr_lp.a2,
        k.rest_acc_lp.b0,
        k.rest_acc_lp.b1,
        k.rest_acc_lp.b2,
        k.rest_acc_lp.a1,
        k.rest_acc_lp.a2,
        k.bias.bias_p0,
        k.bias.bias_v,
        k.bias.bias_motion_w,
        k.bias.bias_vertical_w,
        k.bias.bias_rest_w,
    ]
}

#[tactic(auto, unfolding(crate::specs::Pack::magnetic_coeffs, crate::specs::Marks::flag))]
fn magnetic_coeffs(k: MagneticCoefficients) -> [f64; 9]
    ensures { result ≡ magnetic_coeffs k }
{
    match k.mag_norm_dip_lp {
        None => [k.mag_ts, k.k_mag, k.k_mag_ref, 0.0, 0.0, 0.0, 0.0, 0.0, 0.0],
        Some(c) => {
            [
                k.mag_ts,
                k.k_mag,
                k.k_mag_ref,
                1.0,
                c.b0,
                c.b1,
                c.b2,
                c.a1,
                c.a2,
            ]
        }
    }
}

#[tactic(auto, unfolding(crate::specs::Pack::inclination))]
fn inclination(s: Inclination) -> [f64; 12]
    ensures { result ≡ inclination s }
{
    [
        s.gyr_quat.0,
        s.gyr_quat.1,
        s.gyr_quat.2,
        s.gyr_quat.3,
        s.acc_quat.0,
        s.acc_quat.1,
        s.acc_quat.2,
        s.acc_quat.3,
        s.last_acc_lp.0,
        s.last_acc_lp.1,
        s.last_acc_lp.2,
        s.last_acc_corr_angular_rate,
    ]
}

#[tactic(auto, unfolding(crate::specs::Pack::bias))]
fn bias(s: Bias) -> [f64; 12]
    ensures { result ≡ bias s }
{
    [
        s.bias.0,
        s.bias.1,
        s.bias.2,
        s.bias_p.m00,
        s.bias_p.m01,
        s.bias_p.m02,
        s.bias_p.m10,
        s.bias_p.m11,
        s.bias_p.m12,
        s.bias_p.m20,
        s.bias_p.m21,
        s.bias_p.m22,
    ]
}

#[tactic(auto, unfolding(crate::specs::Pack::rest))]
fn rest(s: Rest) -> [f64; 10]
    ensures { result ≡ rest s }
{
    [
        flag(s.rest_detected),
        s.rest_last_squared_deviations.0,
        s.rest_last_squared_deviations.1,
        s.rest_t,
        s.rest_last_gyr_lp.0,
        s.rest_last_gyr_lp.1,
        s.rest_last_gyr_lp.2,
        s.rest_last_acc_lp.0,
        s.rest_last_acc_lp.1,
        s.rest_last_acc_lp.2,
    ]
}

#[tactic(auto, unfolding(crate::specs::Pack::magnetic_state))]
fn magnetic_state(s: MagneticState) -> [f64; 14]
    ensures { result ≡ magnetic_state s }
{
    [
        s.heading.delta,
        s.heading.k_mag_init,
        s.heading.last_mag_dis_angle,
        s.heading.last_mag_corr_angular_rate,
        flag(s.field.mag_dist_detected),
        s.field.mag_ref_norm,
        s.field.mag_ref_dip,
        s.field.mag_undisturbed_t,
        s.field.mag_reject_t,
        s.field.mag_candidate_norm,
        s.field.mag_candidate_dip,
        s.field.mag_candidate_t,
        s.field.mag_norm_dip.0,
        s.field.mag_norm_dip.1,
    ]
}

// Writes xs over the image, from the place at on.
#[tactic(auto, using(crate::proofs::Put::copied))]
fn put(image: &mut [f64; SIZE], at: usize, xs: &[f64])
    requires { at + length xs.now ≤ SIZE }
    ensures { image.new ≡ put xs.now image.old at }
{
    image[at..at + xs.len()].copy_from_slice(xs);
}

fn put_channels<const N: usize>(image: &mut [f64; SIZE], at: usize, c: [Channel; N])
    requires { at + 3 * N ≤ SIZE }
    ensures { image.new ≡ put (channels N c.entry) image.old at }
{
    for (i, x) in c.iter().enumerate() {
        put(image, at + 3 * i, &triple(*x));
    }
}

fn put_coeffs(image: &mut [f64; SIZE], i: InertialCoefficients, m: MagneticCoefficients)
    ensures { image.new ≡ put (all_coeffs i m) image.old 25 }
{
    put(image, 25, &inertial_coeffs(i));
    put(image, 47, &magnetic_coeffs(m));
}

fn put_inclination(image: &mut [f64; SIZE], s: Inclination)
    ensures { image.new ≡ put (all_inclination s) image.old 56 }
{
    put(image, 56, &inclination(s));
    put_channels(image, 68, s.acc_lp_state);
}

fn put_bias(image: &mut [f64; SIZE], s: Bias)
    ensures { image.new ≡ put (all_bias s) image.old 77 }
{
    put(image, 77, &bias(s));
    put_channels(image, 89, s.motion_bias_est_rlp_state);
    put_channels(image, 116, s.motion_bias_est_bias_lp_state);
}

fn put_rest(image: &mut [f64; SIZE], s: Rest)
    ensures { image.new ≡ put (all_rest s) image.old 122 }
{
    put(image, 122, &rest(s));
    put_channels(image, 132, s.rest_gyr_lp_state);
    put_channels(image, 141, s.rest_acc_lp_state);
}

fn put_magnetic_state(image: &mut [f64; SIZE], s: MagneticState)
    ensures { image.new ≡ put (all_magnetic_state s) image.old 150 }
{
    put(image, 150, &magnetic_state(s));
    put_channels(image, 164, s.field.mag_norm_dip_lp_state);
}

pub(crate) fn put_all(image: &mut [f64; SIZE], f: VQF)
    ensures { image.new ≡ pack f }
{
    let params = Params {
        inertial: f.inertial.params,
        magnetic: f.magnetic.params,
    };
    put(image, 0, &settings(params));
    put_coeffs(image, f.inertial.coeffs, f.magnetic.coeffs);
    put_inclination(image, f.inertial.state.inclination);
    put_bias(image, f.inertial.state.bias);
    put_rest(image, f.inertial.state.rest);
    put_magnetic_state(image, f.magnetic.state);
}

// Writes the filter, where the image has SIZE numbers; any other is left as it was.
pub fn pack(image: &mut [f64], f: VQF) -> Result<(), WrongLength>
    ensures { (result ≡ written image.old) × (image.new ≡ packed image.old f) }
{
    let Some(numbers) = image.as_mut_array() else {
        return Err(WrongLength);
    };
    put_all(numbers, f);
    Ok(())
}
