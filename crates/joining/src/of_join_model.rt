//! What this crate and those above it name of `join_model`.

pub use join_model::table::{TableKind, TableRefusal};
