//! What this crate and those above it name of `operation_list`.

pub use start_parts::of_operation_list::Operations;
