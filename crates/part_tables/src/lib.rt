// What an unpacked record leaves in lent buffers, and its answer as one number.
#![tactic(auto)]

mod pack;

pub use pack::{Buffers, pack_tables};
