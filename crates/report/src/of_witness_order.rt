//! What this crate and those above it name of `witness_order`.

pub use witness_order::{Ordered, Witness};
