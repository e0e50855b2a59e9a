//! One turn of one bus of the tree, over any parent and any children.
#![tactic(auto)]

mod answers;
mod children;
mod down;
mod foreseen;
mod hearers;
mod inject;
mod leave;
pub mod of_ddm_types;
pub mod of_item_states;
pub mod of_tree_model;
mod parent;
mod readers;
mod reply;
mod request_erase;
mod request_read;
mod sought;
mod told;
mod turns;

pub use foreseen::would_grant;
pub use of_tree_model::BusTurn;
pub use turns::{grant, grant_into};
