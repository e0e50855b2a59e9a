//! The film of a run as definitions: all that a page needs to show a run turn by turn, as text.
#![tactic(auto)]

pub mod examples;
pub mod laws;
