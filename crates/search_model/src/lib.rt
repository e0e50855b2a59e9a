//! The search for all outcomes of a machine, as definitions, and what is claimed of it.
//! Theorems alone: there is nothing to run.
#![tactic(auto)]

pub mod examples;
pub mod laws;
