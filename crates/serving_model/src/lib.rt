//! Every order can be shown: the schedule on which a machine completes a list of operations in its order. Theorems alone: there is
//! nothing to run.
#![tactic(auto)]

pub mod examples;
pub mod laws;
