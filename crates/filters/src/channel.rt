ghost use Rattle.std.specs.Prelude.{◌≡◌};
ghost use Rattle.std.specs.Float.{binary64};
ghost use Rattle.filters.specs.Channels.{filter_initial_state, filter_adapt_state_for_coeff_change, filter_step, average, filter_channel, first_number, finite_channel};

use crate::coeffs::Coeffs;

#[derive(Clone, Copy)]
pub enum Phase {
    // The count of the samples so far, and their sum.
    Averaging(f64, f64),
    // Two memories.
    Running(f64, f64),
}

#[derive(Clone, Copy)]
pub struct Channel {
    pub phase: Phase,
}

// What a channel answers to a sample, and the channel after it.
#[derive(Clone, Copy)]
pub struct Filtered {
    pub y: f64,
    pub channel: Channel,
}

impl Channel {
    pub const FRESH: Channel = Channel {
        phase: Phase::Averaging(0.0, 0.0),
    };
}

// The memories at which a steady x0 is answered by x0.
#[tactic(auto, unfolding(crate::specs::Channels::filter_initial_state))]
pub fn filter_initial_state(x0: f64, coeffs: Coeffs) -> Channel
    ensures { result ≡ filter_initial_state x0 coeffs }
{
    let s0 = x0 * (1.0 - coeffs.b0);
    let s1 = x0 * (coeffs.b2 - coeffs.a2);
    Channel {
        phase: Phase::Running(s0, s1),
    }
}

// The memories for new coefficients, after the answer last_y; nothing changes while averaging.
pub fn filter_adapt_state_for_coeff_change(
    last_y: f64,
    old: Coeffs,
    new: Coeffs,
    channel: Channel,
) -> Channel
    ensures { result ≡ filter_adapt_state_for_coeff_change last_y old new channel }
{
    match channel.phase {
        Phase::Averaging(_, _) => channel,
        Phase::Running(s0, s1) => {
            let n0 = s0 + (old.b0 - new.b0) * last_y;
            let n1 = s1 + (old.b1 - new.b1 - old.a1 + new.a1) * last_y;
            Channel {
                phase: Phase::Running(n0, n1),
            }
        }
    }
}

// A sample into a running channel.
#[tactic(auto, unfolding(crate::specs::Channels::filter_step))]
pub fn filter_step(x: f64, coeffs: Coeffs, s0: f64, s1: f64) -> Filtered
    ensures { result ≡ filter_step binary64 x coeffs s0 s1 }
{
    let y = coeffs.b0 * x + s0;
    let n0 = coeffs.b1 * x - coeffs.a1 * y + s1;
    let n1 = coeffs.b2 * x - coeffs.a2 * y;
    let channel = Channel {
        phase: Phase::Running(n0, n1),
    };
    Filtered { y, channel }
}

// A sample into an averaging channel. Where the samples fill tau the channel runs from the next one
// on, and this one's answer is still the average.
#[tactic(auto, unfolding(crate::specs::Channels::average))]
fn average(x: f64, tau: f64, ts: f64, coeffs: Coeffs, count: f64, sum: f64) -> Filtered
    ensures { result ≡ average binary64 x tau ts coeffs count sum }
{
    let n = count + 1.0;
    let s = sum + x;
    let y = s / n;
    if n * ts >= tau {
        let channel = filter_initial_state(y, coeffs);
        Filtered { y, channel }
    } else {
        let channel = Channel {
            phase: Phase::Averaging(n, s),
        };
        Filtered { y, channel }
    }
}

// A sample into a channel.
#[tactic(auto, unfolding(crate::specs::Channels::filter_channel))]
pub fn filter_channel(x: f64, tau: f64, ts: f64, coeffs: Coeffs, channel: Channel) -> Filtered
    ensures { result ≡ filter_channel binary64 x tau ts coeffs channel }
{
    match channel.phase {
        Phase::Averaging(count, sum) => average(x, tau, ts, coeffs, count, sum),
        Phase::Running(s0, s1) => filter_step(x, coeffs, s0, s1),
    }
}

// The count, or the first memory.
#[tactic(auto, unfolding(crate::specs::Channels::first_number))]
pub fn first_number(channel: Channel) -> f64
    ensures { result ≡ first_number channel }
{
    match channel.phase {
        Phase::Averaging(count, _) => count,
        Phase::Running(s0, _) => s0,
    }
}

// Whether the two numbers that the channel stores are finite.
#[tactic(auto, unfolding(crate::specs::Channels::finite_channel))]
pub fn finite_channel(channel: Channel) -> bool
    ensures { result ≡ finite_channel channel }
{
    match channel.phase {
        Phase::Averaging(count, sum) => floats::finite(count) & floats::finite(sum),
        Phase::Running(s0, s1) => floats::finite(s0) & floats::finite(s1),
    }
}
