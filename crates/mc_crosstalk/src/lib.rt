// What a dyn_cross_mode code decides: the sources of the main channels (ISO/IEC 13818-3, 2.5.2.15).
#![tactic(auto)]

mod crosstalk;

pub use crosstalk::{FROM_BASE, TRANSMITTED, dyn_cross_sources};
