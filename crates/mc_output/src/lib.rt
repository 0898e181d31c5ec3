// The output from both base channels and work: dematrixed, and laid out by channel.
#![tactic(auto)]

mod output;

pub use output::{write_output, write_output_of_both};
