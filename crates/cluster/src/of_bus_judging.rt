//! What this crate and those above it name of `bus_judging`.

pub use ddm_tree::of_bus_judging::ChildFace;
