//! What this crate and those above it name of `cluster`.

pub use inspector::of_cluster::{Cluster, clusters};
