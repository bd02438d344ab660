// Call scripts: what a line of one asks for, and what a call of one does.
#![tactic(auto)]

pub mod line;
pub mod lines;
mod names;
pub mod play;
mod printed;
pub mod reader;
pub mod request;

pub use line::{Fault, Line, What};
pub use lines::Lines;
pub use names::Name;
pub use play::called;
pub use reader::Reader;
pub use request::{Call, Construction, Request, Samples};
