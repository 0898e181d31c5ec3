// Frame files (docs/FRAME_FILE.md): the numbers, step counts and values in their bytes, and what is wrong with a file.
#![tactic(auto)]

mod frame;
mod lists;
mod numbers;
mod opening;

pub use frame::{Frame, FrameFault, fault_of};
pub use lists::{fill_steps, fill_values};
pub use numbers::{Numbers, numbers_of};
pub use opening::{Opening, OpeningFault, Version, opening_of, version_of};
