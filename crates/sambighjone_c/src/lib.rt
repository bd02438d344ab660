// The exports for C of crate `sambighjone`, each one call of its function with the same promise.
// include/sambighjone.h says what each does.
#![tactic(auto)]

pub mod ask;
pub mod build;
pub mod feed;
pub mod set;
pub mod update;
