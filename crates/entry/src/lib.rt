// A filter that is kept in place and lent to each call: one thin entry for each sensor. Each does what
// the call by value does, leaves its filter behind the reference and hands back its answer.
#![tactic(auto)]

ghost use Rattle.std.specs.Prelude.{◌≡◌};
ghost use Rattle.std.specs.Float.{binary64};
ghost use Rattle.limits.specs.Answers.{number, told};
ghost use Rattle.vqf.specs.Told.{told_of};
ghost use Rattle.vqf.specs.Update.{update_gyr, update_gyr_with_ts, update_acc, update_mag};

use algebra::Vector;
use limits::Answer;
use vqf::{Updated, VQF};

// A gyroscope sample and the time since the one before.
#[derive(Clone, Copy)]
pub struct Timed {
    pub gyr: Vector,
    pub ts: f64,
}

// Leaves the filter of a call behind the reference, and hands back the answer.
fn keep(f: &mut VQF, u: Updated) -> Answer
    ensures { told (number result) f.new ≡ told_of u }
{
    *f = u.filter;
    u.answer
}

// One gyroscope sample.
pub fn feed_gyr(f: &mut VQF, gyr: Vector) -> Answer
    ensures { told (number result) f.new ≡ update_gyr binary64 f.old gyr }
{
    let u = f.update_gyr(gyr);
    keep(f, u)
}

// One gyroscope sample with an interval of its own.
pub fn feed_gyr_with_ts(f: &mut VQF, s: Timed) -> Answer
    ensures { told (number result) f.new ≡ update_gyr_with_ts binary64 f.old s.gyr s.ts }
{
    let u = f.update_gyr_with_ts(s.gyr, s.ts);
    keep(f, u)
}

// One accelerometer sample.
pub fn feed_acc(f: &mut VQF, acc: Vector) -> Answer
    ensures { told (number result) f.new ≡ update_acc binary64 f.old acc }
{
    let u = f.update_acc(acc);
    keep(f, u)
}

// One magnetometer sample.
pub fn feed_mag(f: &mut VQF, mag: Vector) -> Answer
    ensures { told (number result) f.new ≡ update_mag binary64 f.old mag }
{
    let u = f.update_mag(mag);
    keep(f, u)
}
