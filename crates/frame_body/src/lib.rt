// A frame call on one frame of a frame file: the body's bytes as what is lent, the layout, and the state before the first frame.
#![tactic(auto)]

mod body;
mod layout;
mod state;

pub use body::Body;
pub use layout::layout_of;
pub use state::{first_state, second_state};
