// The frame call, and a fresh state, a carried and a converted one for C.
#![tactic(auto)]

mod export;

pub use export::{
    mc_carry_state_desks, mc_convert_state, mc_decode_frame_excess, mc_fresh_state_desks,
};
