//! Why a machine of buses with large lists never jams: wherever a leaf waits, some bus goes on. Theorems alone: there is nothing
//! to run.
#![tactic(auto)]

pub mod examples;
pub mod laws;
pub mod of_ddm_types;
