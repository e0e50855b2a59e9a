//! LR and SC, over the tables: what stands between a pair that succeeds, and when an SC fails. Theorems alone: there is nothing
//! to run.
#![tactic(auto)]

pub mod laws;
