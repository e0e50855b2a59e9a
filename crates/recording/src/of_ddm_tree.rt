//! What crates above this one name of `ddm_tree`.

pub use any_runs::of_ddm_tree::{Dir, Machine, Subtree};
