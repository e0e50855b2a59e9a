//! What this crate and those above it name of `cluster`.

pub use any_runs::of_cluster::{Cluster, clusters};
