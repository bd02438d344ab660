// The gyro step.
ghost use Rattle.std.specs.Prelude.{◌≡◌};
ghost use Rattle.std.specs.Float.{binary64};
ghost use Rattle.limits.specs.Answers.{number};
ghost use Rattle.tilt.specs.Gyr.{told_gyr, after_gyr, update_gyr, gyr_step, gyr_rest, gyr_filtered, finite_gyr_rest, gyr_stirred, predicted, turned};

use crate::angle::radians;
use crate::rest::{broken, squared_deviation};
use crate::types::{Deviations, Rest, RestParams};
use algebra::vector::EPSILON;
use algebra::{Quaternion, Vector};
use filters::Coeffs;
use limits::{Answer, Tried};

// What a gyro sample leaves of the two things that it changes.
#[derive(Clone, Copy)]
pub struct AfterGyr {
    pub answer: Answer,
    pub rest: Rest,
    pub quat: Quaternion,
}

// All that a filter lends to a gyro sample; of the bias that is the estimate alone.
#[derive(Clone, Copy)]
pub struct BeforeGyr {
    pub rest: Rest,
    pub params: RestParams,
    pub gyr_ts: f64,
    pub coeffs: Coeffs,
    pub quat: Quaternion,
    pub bias: Vector,
}

impl BeforeGyr {
    fn unchanged(self, answer: Answer) -> AfterGyr
        ensures { after_gyr result ≡ told_gyr (number answer) self.rest self.quat }
    {
        AfterGyr {
            answer,
            rest: self.rest,
            quat: self.quat,
        }
    }

    // A gyro sample that lasted ts seconds.
    #[inline(always)]
    #[tactic(auto, unfolding(crate::specs::Gyr::update_gyr))]
    pub fn update(self, gyr: Vector, ts: f64) -> AfterGyr
        ensures { after_gyr result ≡ update_gyr binary64 self.rest self.params self.gyr_ts self.coeffs self.quat self.bias gyr ts }
    {
        if limits::sample::gyr_taken(gyr) {
            if limits::sample::interval_taken(ts) {
                self.step(gyr, ts)
            } else {
                self.unchanged(Answer::BadInterval)
            }
        } else {
            self.unchanged(Answer::BadSample)
        }
    }

    // The step on a sample and an interval that are taken.
    #[inline(always)]
    #[tactic(auto, unfolding(crate::specs::Gyr::gyr_step))]
    fn step(self, gyr: Vector, ts: f64) -> AfterGyr
        ensures { after_gyr result ≡ gyr_step binary64 self.rest self.params self.gyr_ts self.coeffs self.quat self.bias gyr ts }
    {
        let rest = gyr_rest(self.rest, self.params, self.gyr_ts, self.coeffs, gyr);
        let quat = predicted(self.quat, self.bias, gyr, ts);
        if rest.finite & quat.finite {
            AfterGyr {
                answer: Answer::Done,
                rest: rest.value,
                quat: quat.value,
            }
        } else {
            self.unchanged(Answer::NotFinite)
        }
    }
}

// Rest after a gyro sample.
#[tactic(auto, unfolding(crate::specs::Gyr::gyr_rest))]
pub fn gyr_rest(rest: Rest, p: RestParams, ts: f64, coeffs: Coeffs, gyr: Vector) -> Tried<Rest>
    ensures { result ≡ gyr_rest binary64 rest p ts coeffs gyr }
{
    if p.rest_bias_est_enabled | p.mag_dist_rejection_enabled {
        let f = gyr_filtered(rest, p.rest_filter_tau, ts, coeffs, gyr);
        let stirred = gyr_stirred(p, f.rest_last_squared_deviations.0, f.rest_last_gyr_lp);
        Tried {
            finite: finite_gyr_rest(f),
            value: if stirred { broken(f) } else { f },
        }
    } else {
        Tried {
            finite: true,
            value: rest,
        }
    }
}

#[tactic(auto, unfolding(crate::specs::Gyr::gyr_filtered, filters::specs::Banks::filter_vec3))]
fn gyr_filtered(rest: Rest, tau: f64, ts: f64, coeffs: Coeffs, gyr: Vector) -> Rest
    ensures { result ≡ gyr_filtered binary64 rest tau ts coeffs gyr }
{
    let f = filters::filter_vec(gyr.into(), tau, ts, coeffs, rest.rest_gyr_lp_state);
    let y = Vector::from(f.y);
    let channels = f.channels;
    let deviation = squared_deviation(gyr, y);
    Rest {
        rest_last_squared_deviations: Deviations(deviation, rest.rest_last_squared_deviations.1),
        rest_last_gyr_lp: y,
        rest_gyr_lp_state: channels,
        ..rest
    }
}

#[tactic(auto, unfolding(crate::specs::Gyr::finite_gyr_rest))]
fn finite_gyr_rest(rest: Rest) -> bool
    ensures { result ≡ finite_gyr_rest rest }
{
    floats::finite(rest.rest_last_squared_deviations.0)
        & rest.rest_last_gyr_lp.finite()
        & filters::finite_channels(rest.rest_gyr_lp_state)
}

// The source's test that a gyro sample is not quiet.
#[tactic(auto, unfolding(crate::specs::Gyr::gyr_stirred))]
fn gyr_stirred(p: RestParams, deviation: f64, lp: Vector) -> bool
    ensures { result ≡ gyr_stirred binary64 p deviation lp }
{
    let clip = radians(p.bias_clip);
    let th = radians(p.rest_th_gyr);
    (deviation >= th * th)
        | (floats::magnitude(lp.0) > clip)
        | (floats::magnitude(lp.1) > clip)
        | (floats::magnitude(lp.2) > clip)
}

// The gyro prediction, with the bias removed.
#[tactic(auto, unfolding(crate::specs::Gyr::predicted))]
pub fn predicted(quat: Quaternion, bias: Vector, gyr: Vector, ts: f64) -> Tried<Quaternion>
    ensures { result ≡ predicted binary64 quat bias gyr ts }
{
    let unbiased = Vector(gyr.0 - bias.0, gyr.1 - bias.1, gyr.2 - bias.2);
    let n = unbiased.norm();
    if n > EPSILON {
        let next = turned(quat, unbiased, n, ts);
        Tried {
            finite: next.finite(),
            value: next,
        }
    } else {
        Tried {
            finite: true,
            value: quat,
        }
    }
}

// The orientation after turning at the rate gyr, whose norm is n, for ts.
#[tactic(auto, unfolding(crate::specs::Gyr::turned))]
fn turned(quat: Quaternion, gyr: Vector, n: f64, ts: f64) -> Quaternion
    ensures { result ≡ turned binary64 quat gyr n ts }
{
    let angle = n * ts;
    let c = numbers::cos(angle / 2.0);
    let s = numbers::sin(angle / 2.0) / n;
    let step = Quaternion(c, s * gyr.0, s * gyr.1, s * gyr.2);
    quat.times(step).normalize()
}
