//! What this crate and those above it name of `operation_list`.

pub use witness_order::of_operation_list::Operations;
