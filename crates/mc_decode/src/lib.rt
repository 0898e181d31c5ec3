// One frame, on a state that is lent or by value.
#![tactic(auto)]

mod frame;

pub use frame::{decode_mc_frame, frame_by_value};
