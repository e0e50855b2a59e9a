//! The walk of buses that serves what a leaf asks for, in any tree whose parts can be looked at.
#![tactic(auto)]

mod erasing;
pub mod of_tree_model;
mod parts;
mod reading;
mod taking;
mod tree;

pub use erasing::erase;
pub use reading::read;
pub use tree::Tree;
