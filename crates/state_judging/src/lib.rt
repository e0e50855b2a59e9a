//! A state that was read from a checkpoint's words, judged by the rules of a bus and of time: which is the first that is broken, and
//! why a state in which none is keeps them all. Definitions and theorems: there is nothing to run.
#![tactic(auto)]

pub mod examples;
pub mod laws;
pub mod of_state_reading;
pub mod of_state_words;
