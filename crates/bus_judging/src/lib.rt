//! The rules of a bus, of one item, as tests in code: what they ask of the entries in a down list and of the children of a bus is
//! gathered one by one, without memory.
#![tactic(auto)]

mod children;
pub mod of_ddm_types;
pub mod of_tree_model;
mod parent;
mod queue;

pub use children::{ChildFace, ChildrenFacts};
pub use parent::{ParentFacts, RequestFacts};
pub use queue::QueueFacts;
