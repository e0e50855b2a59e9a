//! What this crate and those above it name of `operation_list`.

pub use cluster::of_operation_list::Operations;
