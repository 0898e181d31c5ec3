// Reads the codes of a payload in the order of the string: scfsi, predictors, scalefactors, granules (ISO/IEC 13818-3, 2.5.1.17).
#![tactic(auto)]

mod granules;
mod payload;
mod predictors;
mod scalefactors;

pub use payload::{PayloadCodes, read_payload};
