//! The words by which a search tells one state of a machine from another, as definitions, and what is claimed of them.
//! Theorems alone: there is nothing to run.
#![tactic(auto)]

pub mod laws;
