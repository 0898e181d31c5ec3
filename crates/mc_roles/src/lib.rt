// What a tc_allocation code decides: the audio channels that the main channels carry, and the base channel that stands in for one (ISO/IEC 13818-3, 2.5.2.15).
#![tactic(auto)]

mod roles;

pub use roles::{base_of, fallback_base_channel, role, tc_roles};
