//! What this crate and those above it name of `any_machine`.

pub use report::of_any_machine::{AnyMachine, release};
