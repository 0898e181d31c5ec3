// The test of what a frame call is lent, and of the values in it (refusals 6 and 7).
#![tactic(auto)]

mod checks;

pub use checks::{lengths_of, lent_fits, values_fit};
