//! Lists of operations and one state of the machine: what the rules of order say of them, with no turn in it. Theorems alone:
//! there is nothing to run.
#![tactic(auto)]

pub mod laws;
