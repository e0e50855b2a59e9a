//! What this crate and those above it name of `any_machine`.

pub use any_runs::of_any_machine::{AnyMachine, Depths, Machines};
