//! What this crate and those above it name of `cluster`.

pub use any_machine::of_cluster::{Cluster, clusters};
