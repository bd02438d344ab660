// Norm and dip of the field, its disturbance, and a new field.
ghost use Rattle.std.specs.Prelude.{◌≡◌};
ghost use Rattle.std.specs.Float.{binary64};
ghost use Rattle.magnetic.specs.Told.{reference, candidate, with_reference, with_candidate};
ghost use Rattle.magnetic.specs.Fields.{norm_and_dip, smoothed, near, undisturbed, reference_step, followed, both_followed, candidate_time, counted_candidate, accepted, candidate_step, field_step, finite_field};

use crate::types::{Field, MagneticCoefficients, MagneticParams, NormDip};
use algebra::Vector;
use std::f64::consts::PI;

#[tactic(auto, unfolding(crate::specs::Fields::norm_and_dip))]
fn norm_and_dip(mag_earth: Vector) -> NormDip
    ensures { result ≡ norm_and_dip binary64 mag_earth }
{
    let norm = mag_earth.norm();
    NormDip(norm, -numbers::asin(mag_earth.2 / norm))
}

#[tactic(auto, unfolding(crate::specs::Fields::smoothed))]
fn smoothed(f: Field, raw: NormDip, tau: f64, c: MagneticCoefficients) -> Field
    ensures { result ≡ smoothed binary64 f raw tau c }
{
    match c.mag_norm_dip_lp {
        None => Field {
            mag_norm_dip: raw,
            ..f
        },
        Some(k) => {
            let x = [raw.0, raw.1];
            let g = filters::filter_vec(x, tau, c.mag_ts, k, f.mag_norm_dip_lp_state);
            Field {
                mag_norm_dip: NormDip(g.y[0], g.y[1]),
                mag_norm_dip_lp_state: g.channels,
                ..f
            }
        }
    }
}

impl Field {
    fn reference(self) -> NormDip
        ensures { result ≡ reference self }
    {
        NormDip(self.mag_ref_norm, self.mag_ref_dip)
    }

    fn candidate(self) -> NormDip
        ensures { result ≡ candidate self }
    {
        NormDip(self.mag_candidate_norm, self.mag_candidate_dip)
    }
}

// Whether a norm and a dip lie within the thresholds of others.
#[tactic(auto, unfolding(crate::specs::Fields::near))]
fn near(x: NormDip, y: NormDip, p: MagneticParams) -> bool
    ensures { result ≡ near binary64 x y p }
{
    (floats::magnitude(x.0 - y.0) < p.mag_norm_th * y.0)
        & (floats::magnitude(x.1 - y.1) < p.mag_dip_th * (PI / 180.0))
}

// A first-order step of x towards y.
#[tactic(auto, unfolding(crate::specs::Fields::followed))]
fn followed(x: f64, k: f64, y: f64) -> f64
    ensures { result ≡ followed binary64 x k y }
{
    x + k * (y - x)
}

// A step of a norm and of a dip.
#[tactic(auto, unfolding(crate::specs::Fields::both_followed))]
fn both_followed(x: NormDip, k: f64, y: NormDip) -> NormDip
    ensures { result ≡ both_followed binary64 x k y }
{
    NormDip(followed(x.0, k, y.0), followed(x.1, k, y.1))
}

// The field with another reference.
fn with_reference(f: Field, detected: bool, x: NormDip, undisturbed_t: f64) -> Field
    ensures { result ≡ with_reference f detected x undisturbed_t }
{
    Field {
        mag_dist_detected: detected,
        mag_ref_norm: x.0,
        mag_ref_dip: x.1,
        mag_undisturbed_t: undisturbed_t,
        ..f
    }
}

fn with_candidate(f: Field, x: NormDip, t: f64) -> Field
    ensures { result ≡ with_candidate f x t }
{
    Field {
        mag_candidate_norm: x.0,
        mag_candidate_dip: x.1,
        mag_candidate_t: t,
        ..f
    }
}

// Close to the reference for one more sample.
#[tactic(auto, unfolding(crate::specs::Fields::undisturbed))]
fn undisturbed(f: Field, p: MagneticParams, c: MagneticCoefficients) -> Field
    ensures { result ≡ undisturbed binary64 f p c }
{
    let t = f.mag_undisturbed_t + c.mag_ts;
    if t >= p.mag_min_undisturbed_time {
        let reference = both_followed(f.reference(), c.k_mag_ref, f.mag_norm_dip);
        with_reference(f, false, reference, t)
    } else {
        with_reference(f, f.mag_dist_detected, f.reference(), t)
    }
}

// Magnetic disturbance detection.
#[tactic(auto, unfolding(crate::specs::Fields::reference_step))]
fn reference_step(f: Field, p: MagneticParams, c: MagneticCoefficients) -> Field
    ensures { result ≡ reference_step binary64 f p c }
{
    if near(f.mag_norm_dip, f.reference(), p) {
        undisturbed(f, p, c)
    } else {
        with_reference(f, true, f.reference(), 0.0)
    }
}

// The candidate's time counts while the reader turns fast enough.
#[tactic(auto, unfolding(crate::specs::Fields::candidate_time))]
fn candidate_time(t: f64, p: MagneticParams, mag_ts: f64, gyr: f64) -> f64
    ensures { result ≡ candidate_time binary64 t p mag_ts gyr }
{
    if gyr >= p.mag_new_min_gyr * PI / 180.0 {
        t + mag_ts
    } else {
        t
    }
}

// Close to the candidate for one more sample.
#[tactic(auto, unfolding(crate::specs::Fields::counted_candidate))]
fn counted_candidate(f: Field, p: MagneticParams, c: MagneticCoefficients, gyr: f64) -> Field
    ensures { result ≡ counted_candidate binary64 f p c gyr }
{
    let candidate = both_followed(f.candidate(), c.k_mag_ref, f.mag_norm_dip);
    let t = candidate_time(f.mag_candidate_t, p, c.mag_ts, gyr);
    with_candidate(f, candidate, t)
}

// The candidate becomes the reference when it has been seen long enough.
#[tactic(auto, unfolding(crate::specs::Fields::accepted))]
fn accepted(f: Field, p: MagneticParams) -> Field
    ensures { result ≡ accepted binary64 f p }
{
    let t = f.mag_candidate_t;
    if f.mag_dist_detected
        & ((t >= p.mag_new_time) | ((f.mag_ref_norm == 0.0) & (t >= p.mag_new_first_time)))
    {
        with_reference(f, false, f.candidate(), p.mag_min_undisturbed_time)
    } else {
        f
    }
}

// New magnetic field acceptance; gyr is the norm of the filtered gyro sample.
#[tactic(auto, unfolding(crate::specs::Fields::candidate_step))]
fn candidate_step(f: Field, p: MagneticParams, c: MagneticCoefficients, gyr: f64) -> Field
    ensures { result ≡ candidate_step binary64 f p c gyr }
{
    if near(f.mag_norm_dip, f.candidate(), p) {
        accepted(counted_candidate(f, p, c, gyr), p)
    } else {
        with_candidate(f, f.mag_norm_dip, 0.0)
    }
}

// The field after a sample, with disturbance rejection on.
#[tactic(auto, unfolding(crate::specs::Fields::field_step))]
pub fn field_step(
    f: Field,
    p: MagneticParams,
    c: MagneticCoefficients,
    mag_earth: Vector,
    gyr_lp: Vector,
) -> Field
    ensures { result ≡ field_step binary64 f p c mag_earth gyr_lp }
{
    let raw = norm_and_dip(mag_earth);
    let seen = smoothed(f, raw, p.mag_current_tau, c);
    let known = reference_step(seen, p, c);
    candidate_step(known, p, c, gyr_lp.norm())
}

// Whether all that the field group stores is finite.
#[tactic(auto, unfolding(crate::specs::Fields::finite_field))]
pub fn finite_field(f: Field) -> bool
    ensures { result ≡ finite_field f }
{
    floats::finite(f.mag_ref_norm)
        & floats::finite(f.mag_ref_dip)
        & floats::finite(f.mag_undisturbed_t)
        & floats::finite(f.mag_reject_t)
        & floats::finite(f.mag_candidate_norm)
        & floats::finite(f.mag_candidate_dip)
        & floats::finite(f.mag_candidate_t)
        & floats::finite(f.mag_norm_dip.0)
        & floats::finite(f.mag_norm_dip.1)
        & filters::finite_channels(f.mag_norm_dip_lp_state)
}
