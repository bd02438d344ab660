// The filter for C and Rust firmware: the caller lends an image of 170 numbers to each call.
// include/sambighjone.h says what each does.
#![tactic(auto)]

pub mod ask;
pub mod build;
pub mod feed;
mod kept;
mod put;
pub mod set;
pub mod update;
