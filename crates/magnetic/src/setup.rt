// The coefficients and the fresh state of settings, and which settings are taken.
ghost use Rattle.std.specs.Prelude.{◌≡◌};
ghost use Rattle.std.specs.Float.{binary64};
ghost use Rattle.magnetic.specs.Setup.{house, taus_taken, thresholds_taken, times_taken, taken, smoothing_of, setup, restarted_field, fresh_state, new};

use crate::types::{
    Field, Heading, Magnetic, MagneticCoefficients, MagneticParams, MagneticState, NormDip,
};
use filters::{Channel, Coeffs};
use limits::{sample, setting};

impl MagneticParams {
    pub const HOUSE: MagneticParams = MagneticParams {
        tau_mag: 9.0,
        mag_current_tau: 0.05,
        mag_ref_tau: 20.0,
        mag_norm_th: 0.1,
        mag_dip_th: 10.0,
        mag_new_time: 20.0,
        mag_new_first_time: 5.0,
        mag_new_min_gyr: 20.0,
        mag_min_undisturbed_time: 0.5,
        mag_max_rejection_time: 60.0,
        mag_rejection_factor: 2.0,
    };

    // The house settings of this half.
    #[tactic(auto, unfolding(crate::specs::Setup::house))]
    pub fn house() -> MagneticParams
        ensures { result ≡ house binary64 }
    {
        MagneticParams::HOUSE
    }
}

#[tactic(auto, unfolding(crate::specs::Setup::taus_taken))]
fn taus_taken(p: MagneticParams, mag_ts: f64) -> bool
    ensures { result ≡ taus_taken binary64 p mag_ts }
{
    setting::gain_tau_taken(p.tau_mag)
        & setting::tau_or_off_taken(mag_ts, p.mag_current_tau)
        & setting::gain_tau_taken(p.mag_ref_tau)
}

#[tactic(auto, unfolding(crate::specs::Setup::thresholds_taken))]
fn thresholds_taken(p: MagneticParams) -> bool
    ensures { result ≡ thresholds_taken binary64 p }
{
    setting::norm_threshold_taken(p.mag_norm_th)
        & setting::dip_threshold_taken(p.mag_dip_th)
        & setting::min_gyr_taken(p.mag_new_min_gyr)
        & setting::rejection_factor_taken(p.mag_rejection_factor)
}

#[tactic(auto, unfolding(crate::specs::Setup::times_taken))]
fn times_taken(p: MagneticParams) -> bool
    ensures { result ≡ times_taken binary64 p }
{
    setting::duration_taken(p.mag_new_time)
        & setting::duration_taken(p.mag_new_first_time)
        & setting::duration_taken(p.mag_min_undisturbed_time)
        & setting::duration_taken(p.mag_max_rejection_time)
}

// Whether the interval and the settings are within their limits.
#[tactic(auto, unfolding(crate::specs::Setup::taken))]
pub fn taken(p: MagneticParams, mag_ts: f64) -> bool
    ensures { result ≡ taken binary64 p mag_ts }
{
    sample::interval_taken(mag_ts) & taus_taken(p, mag_ts) & thresholds_taken(p) & times_taken(p)
}

#[tactic(auto, unfolding(crate::specs::Setup::smoothing_of))]
fn smoothing_of(tau: f64, mag_ts: f64) -> Option<Coeffs>
    ensures { result ≡ smoothing_of binary64 tau mag_ts }
{
    if tau > 0.0 {
        Some(filters::filter_coeffs(tau, mag_ts))
    } else {
        None
    }
}

#[tactic(auto, unfolding(crate::specs::Setup::setup))]
fn setup(p: MagneticParams, mag_ts: f64) -> MagneticCoefficients
    ensures { result ≡ setup binary64 p mag_ts }
{
    MagneticCoefficients {
        mag_ts,
        k_mag: filters::gain_from_tau(p.tau_mag, mag_ts),
        k_mag_ref: filters::gain_from_tau(p.mag_ref_tau, mag_ts),
        mag_norm_dip_lp: smoothing_of(p.mag_current_tau, mag_ts),
    }
}

// Nothing is known of the field but its last norm and dip.
#[tactic(auto, unfolding(crate::specs::Setup::restarted_field))]
pub fn restarted_field(p: MagneticParams, x: NormDip) -> Field
    ensures { result ≡ restarted_field binary64 p x }
{
    Field {
        mag_dist_detected: true,
        mag_ref_norm: 0.0,
        mag_ref_dip: 0.0,
        mag_undisturbed_t: 0.0,
        mag_reject_t: p.mag_max_rejection_time,
        mag_candidate_norm: -1.0,
        mag_candidate_dip: 0.0,
        mag_candidate_t: 0.0,
        mag_norm_dip: x,
        mag_norm_dip_lp_state: [Channel::FRESH; 2],
    }
}

impl MagneticState {
    // The state before the first sample.
    #[tactic(auto, unfolding(crate::specs::Setup::fresh_state))]
    pub fn fresh(p: MagneticParams) -> MagneticState
        ensures { result ≡ fresh_state binary64 p }
    {
        let heading = Heading {
            delta: 0.0,
            k_mag_init: 1.0,
            last_mag_dis_angle: 0.0,
            last_mag_corr_angular_rate: 0.0,
        };
        let field = restarted_field(p, NormDip(0.0, 0.0));
        MagneticState { heading, field }
    }
}

impl Magnetic {
    // The half that settings and an interval within their limits give.
    #[tactic(auto, unfolding(crate::specs::Setup::new))]
    pub fn new(params: MagneticParams, mag_ts: f64) -> Magnetic
        ensures { result ≡ new binary64 params mag_ts }
    {
        Magnetic {
            params,
            coeffs: setup(params, mag_ts),
            state: MagneticState::fresh(params),
        }
    }
}
