// Names of channels.
#![tactic(auto)]

mod text;

pub use text::name_of;
