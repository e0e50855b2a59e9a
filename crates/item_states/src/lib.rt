//! The tables of the item states, the faces of a bus's children and of its parent, the entries of a down list, and what a list
//! of transactions asks of its entries.
#![tactic(auto)]

mod agent;
mod entries;
mod named;
pub mod of_ddm_types;
pub mod of_tree_model;
mod parent;
mod tables;

pub use agent::Agent;
pub use entries::DownEntry;
pub use named::Named;
pub use parent::{Parent, ParentList};
pub use tables::{leaf_answer, leaf_data, leaf_hold, leaf_lose};
