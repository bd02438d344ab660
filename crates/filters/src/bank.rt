ghost use Rattle.std.specs.Prelude.{◌≡◌};
ghost use Rattle.std.specs.Float.{binary64};
ghost use Rattle.filters.specs.Banks.{filter_vec, adapted, first_numbers, finite_channels};

use crate::channel::{
    Channel, filter_adapt_state_for_coeff_change, filter_channel, finite_channel, first_number,
};
use crate::coeffs::Coeffs;

// What a bank answers to a sample, and its channels after it.
#[derive(Clone, Copy)]
pub struct Bank<const N: usize> {
    pub y: [f64; N],
    pub channels: [Channel; N],
}

// A sample into each channel.
pub fn filter_vec<const N: usize>(
    x: [f64; N],
    tau: f64,
    ts: f64,
    coeffs: Coeffs,
    c: [Channel; N],
) -> Bank<N>
    ensures { result ≡ filter_vec binary64 N x.entry tau ts coeffs c.entry }
{
    let mut y = x;
    let mut channels = c;
    for i in 0..N {
        let f = filter_channel(x[i], tau, ts, coeffs, c[i]);
        y[i] = f.y;
        channels[i] = f.channel;
    }
    Bank { y, channels }
}

// Each channel for new coefficients, after its answer in last_y.
pub fn adapted<const N: usize>(
    last_y: [f64; N],
    old: Coeffs,
    new: Coeffs,
    c: [Channel; N],
) -> [Channel; N]
    ensures { result ≡ adapted N last_y.entry old new c.entry }
{
    let mut channels = c;
    for i in 0..N {
        channels[i] = filter_adapt_state_for_coeff_change(last_y[i], old, new, c[i]);
    }
    channels
}

// Each channel's count or first memory.
pub fn first_numbers<const N: usize>(c: [Channel; N]) -> [f64; N]
    ensures { result ≡ first_numbers binary64 N c.entry }
{
    let mut numbers = [0.0; N];
    for i in 0..N {
        numbers[i] = first_number(c[i]);
    }
    numbers
}

// Whether all that the channels store is finite.
pub fn finite_channels<const N: usize>(c: [Channel; N]) -> bool
    ensures { result ≡ finite_channels N c.entry }
{
    let mut all = true;
    for channel in c {
        all = all & finite_channel(channel);
    }
    all
}
