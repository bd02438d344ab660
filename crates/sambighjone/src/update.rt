// A sample of each sensor in one call.
ghost use Rattle.std.specs.Prelude.{◌≡◌, [], ◌∷◌, ◌+◌, ◌≤◌, length};
ghost use Rattle.limits.specs.Answers.{number, told};
ghost use Rattle.vqf.specs.Told.{told_of, all_told};
ghost use Rattle.image.specs.Image.{unpack};
ghost use Rattle.image.specs.Unpack.{vector};
ghost use Rattle.sambighjone.specs.Calls.{sampled, magnetometer, stepped, first_refusal, summed_up, updated, given};

use crate::kept::{WRONG_LENGTH, keep};
use crate::put::put;
use algebra::Vector;
use image::SIZE;
use limits::Answer;
use vqf::{Updated, UpdatedAll};

fn sampled(samples: &[f64]) -> bool
    ensures { result ≡ sampled samples.now }
{
    (samples.len() == 6) | (samples.len() == 9)
}

fn vector(samples: &[f64], at: usize) -> Vector
    requires { at + 3 ≤ length samples.now }
    ensures { result ≡ vector samples.now at }
{
    Vector(samples[at], samples[at + 1], samples[at + 2])
}

#[tactic(auto, unfolding(crate::specs::Calls::magnetometer))]
fn magnetometer(samples: &[f64]) -> Option<Vector>
    ensures { result ≡ magnetometer samples.now }
{
    if samples.len() == 9 {
        Some(vector(samples, 6))
    } else {
        None
    }
}

fn stepped(image: &[f64], samples: &[f64]) -> UpdatedAll
    requires { 6 ≤ length samples.now }
    ensures { all_told result ≡ stepped (unpack image.now) samples.now }
{
    image::unpack::unpack(image).update(
        vector(samples, 0),
        vector(samples, 3),
        magnetometer(samples),
    )
}

#[tactic(auto, unfolding(crate::specs::Calls::first_refusal))]
fn first_refusal(gyr: Answer, acc: Answer, mag: Answer) -> Answer
    ensures { number result ≡ first_refusal (number gyr) (number acc) (number mag) }
{
    if gyr != Answer::Done {
        gyr
    } else if acc != Answer::Done {
        acc
    } else {
        mag
    }
}

// The first refusal, beside the filter that the three steps leave.
fn summed_up(all: UpdatedAll) -> Updated
    ensures { told_of result ≡ summed_up (all_told all) }
{
    let answer = first_refusal(all.gyr, all.acc, all.mag);
    Updated {
        answer,
        filter: all.filter,
    }
}

// The gyroscope's and the accelerometer's three numbers, and the magnetometer's or none.
pub fn sambighjone_update(image: &mut [f64], samples: &[f64], answers: &mut [u32]) -> u32
    ensures { told result (image.new, answers.new) ≡ updated samples.now image.old answers.old }
{
    if image.len() != SIZE || answers.len() != 3 || !sampled(samples) {
        return WRONG_LENGTH;
    }
    let all = stepped(image, samples);
    let numbers = [all.gyr.number(), all.acc.number(), all.mag.number()];
    put(answers, &numbers);
    keep(image, summed_up(all))
}
