// A frame from its payload on: payload, layout, output and state.
#![tactic(auto)]

mod unpacked;
mod write;

pub use unpacked::unpacked_frame;
