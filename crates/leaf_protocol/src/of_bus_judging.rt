//! What this crate and those above it name of `bus_judging`.

pub use bus_judging::{ChildFace, ChildrenFacts};
