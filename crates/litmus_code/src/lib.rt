//! The code of an assembled image, as the machine has it: what is claimed of it.
#![tactic(auto)]

pub mod laws;
