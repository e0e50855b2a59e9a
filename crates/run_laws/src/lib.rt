//! What holds of the turns of every run, from its start and from a machine that a run came to. Theorems alone: there is nothing to
//! run.
#![tactic(auto)]

pub mod laws;
