//! What this crate and those above it name of `bus_judging`.

pub use directory::of_bus_judging::{ParentFacts, RequestFacts};
