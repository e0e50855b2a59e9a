//! What this crate and those above it name of `any_machine`.

pub use recording::of_any_machine::{AnyMachine, Machines};
