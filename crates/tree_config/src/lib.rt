//! Tree files: the shape of a tree of buses and leaves, its sizes, its stacks, and the reading of them from TOML.
#![tactic(auto)]

mod config;
mod grammar;
mod keys;
mod numbers;
pub mod of_ddm_types;
mod reading;
mod refusal;
mod shape;
mod shape_reading;
mod shape_text;

pub use config::TreeConfig;
pub use grammar::shapes_by_grammar;
pub use reading::{MOST_BYTES, read_tree};
pub use refusal::{TreeKey, TreeRefusal};
pub use shape::Shape;
