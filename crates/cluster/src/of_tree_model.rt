//! What this crate and those above it name of `tree_model`.

pub use ddm_tree::of_tree_model::{
    BusTurn, CopyPlace, DirLengths, LeafLengths, LeafSpot, Traffic, TreeChild,
};
