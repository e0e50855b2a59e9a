//! What this crate and those above it name of `operation_list`.

pub use operation_list::Operations;
