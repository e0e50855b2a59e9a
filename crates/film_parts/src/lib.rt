//! The parts of a still as text, of what a machine tells of its leaves, directories and items; and the lines of those that have a
//! value and of those that a turn changed.
#![tactic(auto)]

mod buses;
mod cursor;
mod items;
mod leaves;
mod lines;
mod lists;
mod numbers;
pub mod of_ddm_text;
pub mod of_ddm_types;
pub mod of_tree_model;
mod part_text;
mod places;
mod still;
mod texts;

pub use buses::add_dir;
pub use cursor::StateWords;
pub use items::BusShape;
pub use leaves::{add_entry, add_hart, add_leaf_lists, add_no_entry};
pub use lines::{push_changed, push_valued, put_changed};
pub use part_text::PartText;
pub use places::add_place;
pub use still::Still;
