// A list of frames to be replayed: what an opening describes, what a frame left as hashes, their comparison and the counts.
#![tactic(auto)]

mod opening;
mod outcome;
mod tally;
mod values;

pub use opening::{fill_steps, lend_values, lent_bytes, second_lent, start};
pub use outcome::{Differences, Left, Outcome, Parts, compare, hashed_values, listed, reached};
pub use tally::{Tally, tallied};
