// The state line, with every stored number, and the answers' line.
use crate::output::Output;
use algebra::{Matrix, Quaternion, Vector};
use filters::{Channel, Coeffs, Phase};
use inertial::asked::BiasEstimate;
use inertial::types::{Bias, BiasCoefficients, BiasParams};
use magnetic::types::{Field, Heading};
use magnetic::{MagneticCoefficients, MagneticParams};
use std::io;
use std::io::Write;
use tilt::{Deviations, Inclination, Rest, RestParams};
use vqf::{Coefficients, Params, State, VQF};

pub fn put_state(out: &mut Output, f: VQF) -> io::Result<()> {
    write!(out, "=")?;
    put_params(out, f.params())?;
    put_coefficients(out, f.coeffs())?;
    put_stored(out, f.state())?;
    writeln!(out)
}

fn put_params(out: &mut Output, p: Params) -> io::Result<()> {
    out.numbers(&[p.inertial.tau_acc, p.magnetic.tau_mag])?;
    out.flag(p.inertial.bias.motion_bias_est_enabled)?;
    out.flag(p.inertial.rest.rest_bias_est_enabled)?;
    out.flag(p.inertial.rest.mag_dist_rejection_enabled)?;
    put_bias_params(out, p.inertial.bias, p.inertial.rest.bias_clip)?;
    put_rest_params(out, p.inertial.rest)?;
    put_magnetic_params(out, p.magnetic)
}

fn put_bias_params(out: &mut Output, p: BiasParams, bias_clip: f64) -> io::Result<()> {
    out.numbers(&[
        p.bias_sigma_init,
        p.bias_forgetting_time,
        bias_clip,
        p.bias_sigma_motion,
        p.bias_vertical_forgetting_factor,
        p.bias_sigma_rest,
    ])
}

fn put_rest_params(out: &mut Output, p: RestParams) -> io::Result<()> {
    out.numbers(&[
        p.rest_min_t,
        p.rest_filter_tau,
        p.rest_th_gyr,
        p.rest_th_acc,
    ])
}

fn put_magnetic_params(out: &mut Output, p: MagneticParams) -> io::Result<()> {
    out.numbers(&[
        p.mag_current_tau,
        p.mag_ref_tau,
        p.mag_norm_th,
        p.mag_dip_th,
        p.mag_new_time,
        p.mag_new_first_time,
        p.mag_new_min_gyr,
        p.mag_min_undisturbed_time,
        p.mag_max_rejection_time,
        p.mag_rejection_factor,
    ])
}

fn put_coefficients(out: &mut Output, c: Coefficients) -> io::Result<()> {
    out.numbers(&[c.inertial.gyr_ts, c.inertial.acc_ts, c.magnetic.mag_ts])?;
    put_coeffs(out, c.inertial.acc_lp)?;
    out.numbers(&[c.magnetic.k_mag])?;
    put_bias_coefficients(out, c.inertial.bias)?;
    put_coeffs(out, c.inertial.rest_gyr_lp)?;
    put_coeffs(out, c.inertial.rest_acc_lp)?;
    out.numbers(&[c.magnetic.k_mag_ref])?;
    put_smoothing(out, c.magnetic)
}

fn put_bias_coefficients(out: &mut Output, c: BiasCoefficients) -> io::Result<()> {
    out.numbers(&[
        c.bias_p0,
        c.bias_v,
        c.bias_motion_w,
        c.bias_vertical_w,
        c.bias_rest_w,
    ])
}

fn put_coeffs(out: &mut Output, c: Coeffs) -> io::Result<()> {
    out.numbers(&[c.b0, c.b1, c.b2, c.a1, c.a2])
}

fn put_smoothing(out: &mut Output, c: MagneticCoefficients) -> io::Result<()> {
    match c.mag_norm_dip_lp {
        None => write!(out, " -"),
        Some(lp) => put_coeffs(out, lp),
    }
}

fn put_stored(out: &mut Output, s: State) -> io::Result<()> {
    put_attitude(
        out,
        s.inertial.inclination,
        s.magnetic.heading,
        s.inertial.rest.rest_detected,
        s.magnetic.field.mag_dist_detected,
    )?;
    put_bias(out, s.inertial.bias)?;
    put_rest(out, s.inertial.rest)?;
    put_field(out, s.magnetic.field)
}

// Where the device points, and whether it rests in an undisturbed field.
fn put_attitude(
    out: &mut Output,
    i: Inclination,
    h: Heading,
    is_resting: bool,
    is_disturbed: bool,
) -> io::Result<()> {
    put_quaternion(out, i.gyr_quat)?;
    put_quaternion(out, i.acc_quat)?;
    out.numbers(&[h.delta])?;
    out.flag(is_resting)?;
    out.flag(is_disturbed)?;
    put_vector(out, i.last_acc_lp)?;
    put_channels(out, &i.acc_lp_state)?;
    out.numbers(&[
        i.last_acc_corr_angular_rate,
        h.k_mag_init,
        h.last_mag_dis_angle,
        h.last_mag_corr_angular_rate,
    ])
}

fn put_bias(out: &mut Output, b: Bias) -> io::Result<()> {
    put_vector(out, b.bias)?;
    put_matrix(out, b.bias_p)?;
    put_channels(out, &b.motion_bias_est_rlp_state)?;
    put_channels(out, &b.motion_bias_est_bias_lp_state)
}

fn put_rest(out: &mut Output, r: Rest) -> io::Result<()> {
    put_deviations(out, r.rest_last_squared_deviations)?;
    out.numbers(&[r.rest_t])?;
    put_vector(out, r.rest_last_gyr_lp)?;
    put_channels(out, &r.rest_gyr_lp_state)?;
    put_vector(out, r.rest_last_acc_lp)?;
    put_channels(out, &r.rest_acc_lp_state)
}

fn put_field(out: &mut Output, f: Field) -> io::Result<()> {
    out.numbers(&[
        f.mag_ref_norm,
        f.mag_ref_dip,
        f.mag_undisturbed_t,
        f.mag_reject_t,
        f.mag_candidate_norm,
        f.mag_candidate_dip,
        f.mag_candidate_t,
        f.mag_norm_dip.0,
        f.mag_norm_dip.1,
    ])?;
    put_channels(out, &f.mag_norm_dip_lp_state)
}

fn put_channels(out: &mut Output, channels: &[Channel]) -> io::Result<()> {
    for channel in channels {
        let (letter, x, y) = match channel.phase {
            Phase::Averaging(count, sum) => ('A', count, sum),
            Phase::Running(m0, m1) => ('R', m0, m1),
        };
        write!(out, " {letter}")?;
        out.numbers(&[x, y])?;
    }
    Ok(())
}

pub fn put_answers(out: &mut Output, f: VQF) -> io::Result<()> {
    write!(out, "?")?;
    put_quaternion(out, f.quat_3d())?;
    put_quaternion(out, f.quat_6d())?;
    put_quaternion(out, f.quat_9d())?;
    out.numbers(&[f.delta()])?;
    put_estimate(out, f.bias_estimate())?;
    out.flag(f.rest_detected())?;
    out.flag(f.mag_dist_detected())?;
    put_deviations(out, f.relative_rest_deviations())?;
    out.numbers(&[f.mag_ref_norm(), f.mag_ref_dip()])?;
    writeln!(out)
}

fn put_estimate(out: &mut Output, estimate: BiasEstimate) -> io::Result<()> {
    put_vector(out, estimate.bias)?;
    out.numbers(&[estimate.sigma])
}

fn put_deviations(out: &mut Output, d: Deviations) -> io::Result<()> {
    out.numbers(&[d.0, d.1])
}

fn put_vector(out: &mut Output, v: Vector) -> io::Result<()> {
    out.numbers(&<[f64; 3]>::from(v))
}

fn put_quaternion(out: &mut Output, q: Quaternion) -> io::Result<()> {
    out.numbers(&[q.0, q.1, q.2, q.3])
}

fn put_matrix(out: &mut Output, m: Matrix) -> io::Result<()> {
    out.numbers(&m.flatten())
}
