//! A breadth first search finds each outcome by a shortest way, also where it tries few turns of a state.
//! Theorems alone: there is nothing to run.
#![tactic(auto)]

pub mod laws;
