//! What reads a litmus test: the initial state, the program and the final section.
#![tactic(auto)]

mod atoms;
mod cells;
mod final_section;
mod init;
mod labels;
mod named;
mod names;
mod operators;
mod parts;
mod program;
mod proposition;
mod quantifier;
mod rows;

pub use final_section::{Final, read_final};
pub use init::read_init;
pub use program::{Program, read_program};
