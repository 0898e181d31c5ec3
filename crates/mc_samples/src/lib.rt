// The values that codes stand for: raw and LFE values in lent buffers, and the excesses of group codes.
#![tactic(auto)]

mod excess;
mod samples;

pub use excess::excesses;
pub use samples::{write_lfe, write_raw};
