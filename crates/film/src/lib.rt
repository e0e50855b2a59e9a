//! The still of a machine: all that it has at one moment, part by part, as text.
#![tactic(auto)]

mod buses;
mod copies;
mod leaves;
pub mod of_any_machine;
pub mod of_any_runs;
pub mod of_ddm_text;
pub mod of_ddm_tree;
pub mod of_ddm_types;
pub mod of_tree_model;
mod stills;

pub use film_parts::{Still, push_changed, push_valued, put_changed};
pub use stills::{StillRoom, take_hart, take_still};
