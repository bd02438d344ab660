// What a call of a script does.
ghost use Rattle.std.specs.Prelude.{◌≡◌};
ghost use Rattle.vqf.specs.Told.{told_of};
ghost use Rattle.script.specs.Plays.{called, built};

use crate::request::{Call, Construction};
use vqf::{Updated, VQF};

fn built(c: Construction) -> Updated
    ensures { told_of result ≡ built c }
{
    VQF::new(c.gyr_ts, c.acc_ts, c.mag_ts, c.settings)
}

// A call of a script on the filter.
#[tactic(auto, unfolding(crate::specs::Plays::called))]
pub fn called(f: VQF, call: Call) -> Updated
    ensures { told_of result ≡ called f call }
{
    match call {
        Call::New(c) => built(c),
        Call::Gyr(v) => f.update_gyr(v),
        Call::GyrWithTs(v, ts) => f.update_gyr_with_ts(v, ts),
        Call::Acc(v) => f.update_acc(v),
        Call::Mag(v) => f.update_mag(v),
        Call::TauAcc(tau) => f.set_tau_acc(tau),
        Call::TauMag(tau) => f.set_tau_mag(tau),
        Call::Motion(on) => f.set_motion_bias_est_enabled(on),
        Call::Rest(on) => f.set_rest_bias_est_enabled(on),
        Call::Dist(on) => f.set_mag_dist_rejection_enabled(on),
        Call::Thresholds(gyr, acc) => f.set_rest_detection_thresholds(gyr, acc),
        Call::Bias(v, sigma) => f.set_bias_estimate(v, sigma),
        Call::MagRef(norm, dip) => f.set_mag_ref(norm, dip),
        Call::Reset => f.reset_state(),
    }
}
