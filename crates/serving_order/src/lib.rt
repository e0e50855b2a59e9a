//! The keys of served runs. Theorems alone: there is nothing to run.
#![tactic(auto)]

pub mod laws;
