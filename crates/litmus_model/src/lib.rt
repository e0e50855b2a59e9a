//! Litmus tests of RISC-V as their authors write them, as definitions: what a file's bytes say, and the image of a test.
#![tactic(auto)]

pub mod examples;
mod name;
mod parts;
mod refusal;
mod test;
mod thread_steps;
mod values;

pub use name::{Name, same_name};
pub use parts::{
    Chunk, Commented, Given, Part, Place, PlacedStep, Standing, Step, Target, Token, Value,
};
pub use refusal::{Fault, ImageRefusal, TestRefusal};
pub use test::{Form, Move, Orders, Quantifier, Runs, Test};
pub use thread_steps::steps_of;
pub use values::{is_given, load_number, same_target};
