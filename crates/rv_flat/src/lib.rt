//! The flat machine as code: all harts over one memory, where each instruction completes at once.
#![tactic(auto)]

mod flat_hart;
mod machine;
mod memory;
pub mod of_ddm_types;
pub mod of_rv_decode;
pub mod of_rv_hart;

pub use machine::FlatMachine;
