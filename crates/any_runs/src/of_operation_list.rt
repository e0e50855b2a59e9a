//! What this crate and those above it name of `operation_list`.

pub use any_machine::of_operation_list::Operations;
