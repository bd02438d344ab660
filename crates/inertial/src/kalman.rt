// The bias estimate of the accelerometer step.
ghost use Rattle.std.specs.Prelude.{◌≡◌};
ghost use Rattle.std.specs.Float.{binary64};
ghost use Rattle.inertial.specs.Kalman.{rotation, smoothed, at_rest, in_motion, unmeasured, measured, raised, widened, innovation, gain, shifted, shrunk, estimated, finite_bias, updated_bias, bias_step};

use crate::types::{Bias, BiasCoefficients, InertialCoefficients, InertialParams};
use algebra::{Matrix, NoInverse, Quaternion, Vector};
use filters::{Channel, Coeffs};
use limits::Tried;
use tilt::angle::radians;
use tilt::{Inclination, Rest};

// The rotation matrix and the first two components of the rotated bias, low-pass filtered.
#[derive(Clone, Copy)]
pub struct Smooth {
    pub r: Matrix,
    pub bias_lp: [f64; 2],
    pub rlp_state: [Channel; 9],
    pub bias_lp_state: [Channel; 2],
}

// The error e, with the variances w, seen through r. A negative w.0 says that there is none.
#[derive(Clone, Copy)]
pub struct Measurement {
    pub e: Vector,
    pub w: Vector,
    pub r: Matrix,
}

#[derive(Clone, Copy)]
pub struct Estimate {
    pub bias: Vector,
    pub bias_p: Matrix,
}

// The bias group after an accelerometer sample, from the inclination and the rest after it, or why the matrix to invert has no inverse.
#[tactic(auto, unfolding(crate::specs::Kalman::bias_step))]
pub fn bias_step(
    b: Bias,
    params: InertialParams,
    coeffs: InertialCoefficients,
    i: Inclination,
    rest: Rest,
    acc_earth: Vector,
) -> Result<Tried<Bias>, NoInverse>
    ensures { result ≡ bias_step binary64 b params coeffs i rest acc_earth }
{
    if params.bias.motion_bias_est_enabled | params.rest.rest_bias_est_enabled {
        let r = rotation(i.acc_quat.times(i.gyr_quat));
        let s = smoothed(b, r, params.tau_acc, coeffs.acc_ts, coeffs.acc_lp);
        let m = measured(s, params, coeffs, rest, acc_earth, b.bias);
        let p = widened(b.bias_p, coeffs.bias);
        let clip = radians(params.rest.bias_clip);
        updated_bias(s, estimated(b.bias, p, m, clip))
    } else {
        Ok(Tried {
            finite: true,
            value: b,
        })
    }
}

// The rotation matrix of a quaternion.
#[tactic(auto, unfolding(crate::specs::Kalman::rotation))]
fn rotation(q: Quaternion) -> Matrix
    ensures { result ≡ rotation binary64 q }
{
    Matrix {
        m00: 1.0 - 2.0 * (q.2 * q.2) - 2.0 * (q.3 * q.3),
        m01: 2.0 * (q.2 * q.1 - q.0 * q.3),
        m02: 2.0 * (q.0 * q.2 + q.3 * q.1),
        m10: 2.0 * (q.0 * q.3 + q.2 * q.1),
        m11: 1.0 - 2.0 * (q.1 * q.1) - 2.0 * (q.3 * q.3),
        m12: 2.0 * (q.2 * q.3 - q.1 * q.0),
        m20: 2.0 * (q.3 * q.1 - q.0 * q.2),
        m21: 2.0 * (q.0 * q.1 + q.3 * q.2),
        m22: 1.0 - 2.0 * (q.1 * q.1) - 2.0 * (q.2 * q.2),
    }
}

#[tactic(auto, unfolding(crate::specs::Kalman::smoothed))]
fn smoothed(b: Bias, r: Matrix, tau: f64, ts: f64, coeffs: Coeffs) -> Smooth
    ensures { result ≡ smoothed binary64 b r tau ts coeffs }
{
    let v = b.bias;
    let x = r.m00 * v.0 + r.m01 * v.1 + r.m02 * v.2;
    let y = r.m10 * v.0 + r.m11 * v.1 + r.m12 * v.2;
    let rlp = b.motion_bias_est_rlp_state;
    let f = filters::filter_vec(r.flatten(), tau, ts, coeffs, rlp);
    let lp = b.motion_bias_est_bias_lp_state;
    let g = filters::filter_vec([x, y], tau, ts, coeffs, lp);
    let flat = f.y;
    let r = Matrix::unflatten(flat);
    let rlp_state = f.channels;
    let bias_lp = g.y;
    let bias_lp_state = g.channels;
    Smooth {
        r,
        bias_lp,
        rlp_state,
        bias_lp_state,
    }
}

#[tactic(auto, unfolding(crate::specs::Kalman::measured))]
fn measured(
    s: Smooth,
    params: InertialParams,
    coeffs: InertialCoefficients,
    rest: Rest,
    acc_earth: Vector,
    bias: Vector,
) -> Measurement
    ensures { result ≡ measured binary64 s params coeffs rest acc_earth bias }
{
    if rest.rest_detected & params.rest.rest_bias_est_enabled {
        at_rest(rest.rest_last_gyr_lp, bias, coeffs.bias.bias_rest_w)
    } else if params.bias.motion_bias_est_enabled {
        let bias_lp = s.bias_lp;
        in_motion(s.r, bias_lp, acc_earth, coeffs.acc_ts, bias, coeffs.bias)
    } else {
        unmeasured(s.r)
    }
}

#[tactic(auto, unfolding(crate::specs::Kalman::at_rest))]
fn at_rest(gyr_lp: Vector, bias: Vector, w: f64) -> Measurement
    ensures { result ≡ at_rest binary64 gyr_lp bias w }
{
    let e = Vector(gyr_lp.0 - bias.0, gyr_lp.1 - bias.1, gyr_lp.2 - bias.2);
    let w = Vector(w, w, w);
    let r = Matrix::diagonal(1.0);
    Measurement { e, w, r }
}

#[tactic(auto, unfolding(crate::specs::Kalman::in_motion))]
fn in_motion(
    r: Matrix,
    bias_lp: [f64; 2],
    acc_earth: Vector,
    ts: f64,
    bias: Vector,
    c: BiasCoefficients,
) -> Measurement
    ensures { result ≡ in_motion binary64 r bias_lp acc_earth ts bias c }
{
    let e0 = -acc_earth.1 / ts + bias_lp[0] - r.m00 * bias.0 - r.m01 * bias.1 - r.m02 * bias.2;
    let e1 = acc_earth.0 / ts + bias_lp[1] - r.m10 * bias.0 - r.m11 * bias.1 - r.m12 * bias.2;
    let e2 = -r.m20 * bias.0 - r.m21 * bias.1 - r.m22 * bias.2;
    let e = Vector(e0, e1, e2);
    let w = Vector(c.bias_motion_w, c.bias_motion_w, c.bias_vertical_w);
    Measurement { e, w, r }
}

#[tactic(auto, unfolding(crate::specs::Kalman::unmeasured))]
fn unmeasured(r: Matrix) -> Measurement
    ensures { result ≡ unmeasured binary64 r }
{
    let e = Vector::ZERO;
    let w = Vector(-1.0, -1.0, -1.0);
    Measurement { e, w, r }
}

#[tactic(auto, unfolding(crate::specs::Kalman::widened))]
fn widened(p: Matrix, c: BiasCoefficients) -> Matrix
    ensures { result ≡ widened binary64 p c }
{
    let mut next = p;
    next.m00 = raised(p.m00, c);
    next.m11 = raised(p.m11, c);
    next.m22 = raised(p.m22, c);
    next
}

// The covariance grows by v on the diagonal where it is below p0.
#[tactic(auto, unfolding(crate::specs::Kalman::raised))]
fn raised(x: f64, c: BiasCoefficients) -> f64
    ensures { result ≡ raised binary64 x c }
{
    if x < c.bias_p0 { x + c.bias_v } else { x }
}

// The Kalman update from the widened covariance p; nothing is updated where nothing is measured.
#[tactic(auto, unfolding(crate::specs::Kalman::estimated))]
fn estimated(bias: Vector, p: Matrix, m: Measurement, clip: f64) -> Result<Estimate, NoInverse>
    ensures { result ≡ estimated binary64 bias p m clip }
{
    if m.w.0 >= 0.0 {
        let inverse = innovation(p, m.r, m.w).invert()?;
        let k = gain(p, m.r, inverse);
        let next = shifted(bias, k, m.e.clip(-clip, clip)).clip(-clip, clip);
        let bias_p = shrunk(p, k, m.r);
        Ok(Estimate { bias: next, bias_p })
    } else {
        Ok(Estimate { bias, bias_p: p })
    }
}

// W + R P R^T
#[tactic(auto, unfolding(crate::specs::Kalman::innovation))]
fn innovation(p: Matrix, r: Matrix, w: Vector) -> Matrix
    ensures { result ≡ innovation binary64 p r w }
{
    let k = r.times(p.times(r.transpose()));
    let mut next = k;
    next.m00 = k.m00 + w.0;
    next.m11 = k.m11 + w.1;
    next.m22 = k.m22 + w.2;
    next
}

// P R^T inv(W + R P R^T)
#[tactic(auto, unfolding(crate::specs::Kalman::gain))]
fn gain(p: Matrix, r: Matrix, inverse: Matrix) -> Matrix
    ensures { result ≡ gain binary64 p r inverse }
{
    p.times(r.transpose().times(inverse))
}

#[tactic(auto, unfolding(crate::specs::Kalman::shifted))]
fn shifted(bias: Vector, k: Matrix, e: Vector) -> Vector
    ensures { result ≡ shifted binary64 bias k e }
{
    Vector(
        bias.0 + (k.m00 * e.0 + k.m01 * e.1 + k.m02 * e.2),
        bias.1 + (k.m10 * e.0 + k.m11 * e.1 + k.m12 * e.2),
        bias.2 + (k.m20 * e.0 + k.m21 * e.1 + k.m22 * e.2),
    )
}

// P - K R P
#[tactic(auto, unfolding(crate::specs::Kalman::shrunk))]
fn shrunk(p: Matrix, k: Matrix, r: Matrix) -> Matrix
    ensures { result ≡ shrunk binary64 p k r }
{
    p.minus(k.times(r).times(p))
}

// The group after the filters and the estimate.
#[tactic(auto, unfolding(crate::specs::Kalman::updated_bias))]
fn updated_bias(s: Smooth, estimated: Result<Estimate, NoInverse>) -> Result<Tried<Bias>, NoInverse>
    ensures { result ≡ updated_bias s estimated }
{
    let n = estimated?;
    let rlp = s.rlp_state;
    let lp = s.bias_lp_state;
    let bias = Bias {
        bias: n.bias,
        bias_p: n.bias_p,
        motion_bias_est_rlp_state: rlp,
        motion_bias_est_bias_lp_state: lp,
    };
    let finite = finite_bias(bias);
    Ok(Tried {
        finite,
        value: bias,
    })
}

#[tactic(auto, unfolding(crate::specs::Kalman::finite_bias))]
fn finite_bias(b: Bias) -> bool
    ensures { result ≡ finite_bias b }
{
    let rlp = b.motion_bias_est_rlp_state;
    let lp = b.motion_bias_est_bias_lp_state;
    b.bias.finite()
        & b.bias_p.finite()
        & filters::finite_channels(rlp)
        & filters::finite_channels(lp)
}
