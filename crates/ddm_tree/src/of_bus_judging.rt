//! What this crate and those above it name of `bus_judging`.

pub use leaf_protocol::of_bus_judging::{ChildFace, ChildrenFacts};
