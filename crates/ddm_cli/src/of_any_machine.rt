//! What this crate and those above it name of `any_machine`.

pub use no_jam::of_any_machine::release;
