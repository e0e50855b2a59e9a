//! Turns are blind to time: no answer but an operation's key, and nothing of a machine but its time and its operations, depends
//! on counts of grants, epochs, stamps, completed instructions, traffic or operations. Theorems alone: there is nothing to run.
#![tactic(auto)]

pub mod examples;
pub mod laws;
