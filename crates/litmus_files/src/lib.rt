//! The image of the test that a file is: the file is read, and then its image is made for a tree.
#![tactic(auto)]

mod assembling;
mod places;

pub use assembling::{AssembledTest, FileRefusal, Unassembled, assembled};
pub use litmus_model::{Fault, ImageRefusal, Runs, Test, TestRefusal};
pub use places::{Places, read_places};
