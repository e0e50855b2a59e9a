//! What this crate and those above it name of `cluster`.

pub use cluster::{Cluster, clusters};
