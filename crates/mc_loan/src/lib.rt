// What a payload is lent with: the test of it (refusal 6), and the settings that it makes.
#![tactic(auto)]

mod loan;

pub use loan::Loan;
