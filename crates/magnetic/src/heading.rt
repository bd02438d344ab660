// The gain of a heading correction, and the correction.
ghost use Rattle.std.specs.Prelude.{◌≡◌};
ghost use Rattle.std.specs.Float.{binary64};
ghost use Rattle.magnetic.specs.Headings.{wrapped, rejected, lifted, next_init, corrected, finite_heading};

use crate::types::{Field, Heading, MagneticCoefficients, MagneticParams};
use std::f64::consts::PI;

// A gain, and the field with its rejection time.
#[derive(Clone, Copy)]
pub struct Rejection {
    pub k: f64,
    pub field: Field,
}

// An angle that is at most a turn out, within ±PI.
#[tactic(auto, unfolding(crate::specs::Headings::wrapped))]
pub fn wrapped(x: f64) -> f64
    ensures { result ≡ wrapped binary64 x }
{
    if x > PI {
        x - 2.0 * PI
    } else if x < -PI {
        x + 2.0 * PI
    } else {
        x
    }
}

// Magnetic disturbance rejection.
#[tactic(auto, unfolding(crate::specs::Headings::rejected, crate::specs::Told::with_reject_t))]
pub fn rejected(f: Field, p: MagneticParams, c: MagneticCoefficients) -> Rejection
    ensures { result ≡ rejected binary64 f p c }
{
    let t = f.mag_reject_t;
    if f.mag_dist_detected {
        if t <= p.mag_max_rejection_time {
            Rejection {
                k: 0.0,
                field: Field {
                    mag_reject_t: t + c.mag_ts,
                    ..f
                },
            }
        } else {
            Rejection {
                k: c.k_mag / p.mag_rejection_factor,
                field: f,
            }
        }
    } else {
        let left = floats::larger(0.0, t - p.mag_rejection_factor * c.mag_ts);
        Rejection {
            k: c.k_mag,
            field: Field {
                mag_reject_t: left,
                ..f
            },
        }
    }
}

// The gain in the first samples is at least 1/N.
#[tactic(auto, unfolding(crate::specs::Headings::lifted))]
fn lifted(k: f64, init: f64) -> f64
    ensures { result ≡ lifted binary64 k init }
{
    if (init != 0.0) & (k < init) { init } else { k }
}

// 1/(N + 1) from 1/N, and 0 after tau_mag.
#[tactic(auto, unfolding(crate::specs::Headings::next_init))]
fn next_init(init: f64, tau_mag: f64, mag_ts: f64) -> f64
    ensures { result ≡ next_init binary64 init tau_mag mag_ts }
{
    if init != 0.0 {
        let next = init / (init + 1.0);
        if next * tau_mag < mag_ts { 0.0 } else { next }
    } else {
        init
    }
}

// The heading after a correction with at least the gain k towards angle.
#[tactic(auto, unfolding(crate::specs::Headings::corrected))]
pub fn corrected(h: Heading, angle: f64, k: f64, tau_mag: f64, mag_ts: f64) -> Heading
    ensures { result ≡ corrected binary64 h angle k tau_mag mag_ts }
{
    let dis = wrapped(angle - h.delta);
    let used = lifted(k, h.k_mag_init);
    Heading {
        delta: wrapped(h.delta + used * dis),
        k_mag_init: next_init(h.k_mag_init, tau_mag, mag_ts),
        last_mag_dis_angle: dis,
        last_mag_corr_angular_rate: used * dis / mag_ts,
    }
}

// Whether all that the heading group stores is finite.
#[tactic(auto, unfolding(crate::specs::Headings::finite_heading))]
pub fn finite_heading(h: Heading) -> bool
    ensures { result ≡ finite_heading h }
{
    floats::finite(h.delta)
        & floats::finite(h.k_mag_init)
        & floats::finite(h.last_mag_dis_angle)
        & floats::finite(h.last_mag_corr_angular_rate)
}
