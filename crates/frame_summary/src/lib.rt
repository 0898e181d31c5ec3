// What is said of a list of values: the largest magnitude, how many are not zero, a hash, and a decimal number for reading.
#![tactic(auto)]

mod decimal;
mod summary;

pub use decimal::{Decimal, SixDigits};
pub use summary::{Summary, millionths_of, summary_of};
