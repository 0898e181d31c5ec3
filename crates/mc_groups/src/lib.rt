// Subband groups (ISO/IEC 13818-3, 2.5.2.15).
#![tactic(auto)]

mod groups;

pub use groups::sbgr_of_subband;
