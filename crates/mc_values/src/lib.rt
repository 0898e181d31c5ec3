// Delays and coefficients of the predictors.
#![tactic(auto)]

mod values;

pub use values::{coefs, delays};
