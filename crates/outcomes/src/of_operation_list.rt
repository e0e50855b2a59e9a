//! What this crate and those above it name of `operation_list`.

pub use measuring::of_operation_list::Operations;
