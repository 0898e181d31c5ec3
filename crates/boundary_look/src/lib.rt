// What is looked for in the output and the history of a boundary frame.
#![tactic(auto)]

mod look;

pub use look::{
    Held, all_are, holds_until, is_stored, same_values, second_is_first, third_is_silent,
};
