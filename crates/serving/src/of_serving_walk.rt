//! What this crate and those above it name of `serving_walk`.

pub use serving_walk::Tree;
