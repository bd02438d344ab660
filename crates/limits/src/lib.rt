// What the reader will take, and what a call answers.
#![tactic(auto)]

pub mod answer;
mod printed;
pub mod sample;
pub mod setting;
pub mod updated;

pub use crate::answer::Answer;
pub use crate::updated::{Tried, Updated};
