//! What the recorded runs of a litmus test come to, as definitions: the state in which a run ends, the table of all
//! states and the log of a test. And what is claimed of them.
#![tactic(auto)]

pub mod examples;
pub mod laws;
