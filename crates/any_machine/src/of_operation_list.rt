//! What this crate and those above it name of `operation_list`.

pub use inspector::of_operation_list::Operations;
