//! What crates above this one name of `operation_list`.

pub use recording::of_operation_list::Operations;
