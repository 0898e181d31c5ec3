// The test of the allocations that the head admits (refusal 8).
#![tactic(auto)]

mod allocations;

pub use allocations::allocations_fit;
