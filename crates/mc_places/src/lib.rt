// Before a payload is read: the places that carry samples, with their step counts and sources.
#![tactic(auto)]

mod places;

pub use places::{Places, places_of};
