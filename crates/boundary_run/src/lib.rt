// Boundary frames: strings of fields, what is lent, the frame call on it, and what it left.
#![tactic(auto)]

mod loan;
mod run;
mod string;
mod told;

pub use loan::{Loan, first_steps, payload_from, payload_of_ones, ramp};
pub use run::{Found, run as run_frame};
pub use string::{Bits, bytes};
pub use told::Told;
