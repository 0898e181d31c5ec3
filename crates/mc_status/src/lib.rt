// Reads mc_composite_status_info() (ISO/IEC 13818-3, 2.5.1.15).
#![tactic(auto)]

mod status;

pub use status::{first_forbidden, read_status};
