// The bytes of a reader, which are read a buffer at a time; nothing allocates.
#![tactic(auto)]

pub mod input;

pub use crate::input::Input;
