//! What this crate and those above it name of `operation_list`.

pub use ddm_tree::of_operation_list::Operations;
