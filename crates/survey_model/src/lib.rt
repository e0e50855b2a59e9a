//! What the recorded runs of many seeds come to, as definitions: the end of a run, the table of all different ends and its text. And
//! what is claimed of them.
#![tactic(auto)]

pub mod examples;
pub mod laws;
