// Words of a text, read a byte at a time: the numbers among them by their bits or as decimals.
#![tactic(auto)]

mod decimal;
pub mod word;

pub use decimal::{Decimal, NoNumber, Stage};
pub use word::Word;
