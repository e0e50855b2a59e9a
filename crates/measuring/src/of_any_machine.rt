//! What crates above this one name of `any_machine`.

pub use recording::of_any_machine::{AnyMachine, Machines};
