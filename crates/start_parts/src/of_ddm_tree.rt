//! What this crate and those above it name of `ddm_tree`.

pub use cluster::of_ddm_tree::{CopyFrom, Dir, Found, Machine, Subtree, directories, place_at};
