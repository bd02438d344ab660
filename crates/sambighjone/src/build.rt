// The calls that make a filter.
ghost use Rattle.std.specs.Prelude.{◌≡◌, ◌≤◌, length};
ghost use Rattle.std.specs.Float.{binary64};
ghost use Rattle.limits.specs.Answers.{number, told};
ghost use Rattle.vqf.specs.Build.{fresh};
ghost use Rattle.vqf.specs.Told.{told_of};
ghost use Rattle.image.specs.Image.{SETTINGS};
ghost use Rattle.sambighjone.specs.Calls.{fed, a_flag, flags_taken, constructed, built};

use crate::kept::{WRONG_LENGTH, keep};
use image::SETTINGS;
use limits::Answer;
use vqf::{Updated, VQF};

// The house filter.
#[tactic(auto, unfolding(crate::specs::Calls::fed))]
pub fn sambighjone_fresh(image: &mut [f64]) -> u32
    ensures { told result image.new ≡ fed (λ f. told 0 (fresh binary64)) image.old }
{
    keep(image, fresh(Answer::Done))
}

// The house filter, beside an answer.
fn fresh(answer: Answer) -> Updated
    ensures { told_of result ≡ told (number answer) (fresh binary64) }
{
    let filter = VQF::fresh();
    Updated { answer, filter }
}

fn a_flag(x: f64) -> bool
    ensures { result ≡ a_flag x }
{
    (x == 0.0) | (x == 1.0)
}

#[tactic(auto, unfolding(crate::specs::Calls::flags_taken))]
fn flags_taken(settings: &[f64; SETTINGS]) -> bool
    ensures { result ≡ flags_taken settings.now }
{
    a_flag(settings[1]) & a_flag(settings[2]) & a_flag(settings[8])
}

// What a refused flag leaves is what the constructor leaves beside a 4.
#[tactic(auto, unfolding(crate::specs::Calls::constructed))]
fn constructed(gyr_ts: f64, acc_ts: f64, mag_ts: f64, settings: &[f64; SETTINGS]) -> Updated
    ensures { told_of result ≡ constructed gyr_ts acc_ts mag_ts settings.now }
{
    if flags_taken(settings) {
        VQF::new(
            gyr_ts,
            Some(acc_ts),
            Some(mag_ts),
            Some(image::unpack::params(settings)),
        )
    } else {
        fresh(Answer::BadSetting)
    }
}

// A filter with intervals and settings of its own.
#[tactic(auto, unfolding(crate::specs::Calls::built, crate::specs::Calls::fed))]
pub fn sambighjone_build(
    image: &mut [f64],
    gyr_ts: f64,
    acc_ts: f64,
    mag_ts: f64,
    settings: &[f64],
) -> u32
    ensures { told result image.new ≡ built gyr_ts acc_ts mag_ts settings.now image.old }
{
    match settings.as_array::<SETTINGS>() {
        None => WRONG_LENGTH,
        Some(settings) => keep(image, constructed(gyr_ts, acc_ts, mag_ts, settings)),
    }
}
