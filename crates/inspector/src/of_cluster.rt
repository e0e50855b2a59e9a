//! What this crate and those above it name of `cluster`.

pub use start_parts::of_cluster::{Cluster, clusters};
