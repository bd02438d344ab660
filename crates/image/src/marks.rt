// How a flag, a phase and an absent filter stand in an image: as 0.0 or 1.0.
ghost use Rattle.std.specs.Prelude.{◌≡◌};
ghost use Rattle.image.specs.Marks.{flag, on, marked, channel};

use filters::{Channel, Phase};

// A channel's phase, and its two numbers.
#[derive(Clone, Copy)]
pub struct Mark(pub f64, pub f64, pub f64);

// 1 for yes, 0 for no.
#[tactic(auto, unfolding(crate::specs::Marks::flag))]
pub fn flag(b: bool) -> f64
    ensures { result ≡ flag b }
{
    if b { 1.0 } else { 0.0 }
}

// Anything but 0 is yes.
#[tactic(auto, unfolding(crate::specs::Marks::on))]
pub fn on(x: f64) -> bool
    ensures { result ≡ on x }
{
    x != 0.0
}

// A channel as its mark and its two numbers.
#[tactic(auto, unfolding(crate::specs::Marks::marked))]
pub fn marked(c: Channel) -> Mark
    ensures { result ≡ marked c }
{
    match c.phase {
        Phase::Averaging(count, sum) => Mark(0.0, count, sum),
        Phase::Running(s0, s1) => Mark(1.0, s0, s1),
    }
}

// The channel of a mark and two numbers.
#[tactic(auto, unfolding(crate::specs::Marks::channel))]
pub fn channel(mark: f64, first: f64, second: f64) -> Channel
    ensures { result ≡ channel mark first second }
{
    if on(mark) {
        Channel {
            phase: Phase::Running(first, second),
        }
    } else {
        Channel {
            phase: Phase::Averaging(first, second),
        }
    }
}
