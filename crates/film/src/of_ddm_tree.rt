//! What this crate and those above it name of `ddm_tree`.

pub use any_runs::of_ddm_tree::{Dir, Machine, Subtree};
