// Tilt and rest, for any engine: the gyro step, what an accelerometer step does to rest and inclination, and what setters and answers
// do with these two groups. Of the gyro bias nothing is known here but the estimate that a gyro step is lent.
#![tactic(auto)]

pub mod acc;
pub mod angle;
pub mod asked;
pub mod gyr;
pub mod rest;
pub mod setters;
pub mod setup;
pub mod types;

pub use crate::types::{Deviations, Inclination, Rest, RestParams};
