// A second-order low-pass filter: its coefficients, one channel of it, and banks of any number of
// channels.
#![tactic(auto)]

pub mod bank;
pub mod channel;
pub mod coeffs;

pub use crate::bank::{Bank, adapted, filter_vec, finite_channels, first_numbers};
pub use crate::channel::{Channel, Phase};
pub use crate::coeffs::{Coeffs, filter_coeffs, finite_coeffs, gain_from_tau};
