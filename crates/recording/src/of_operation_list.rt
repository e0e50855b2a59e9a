//! What crates above this one name of `operation_list`.

pub use any_runs::of_operation_list::Operations;
