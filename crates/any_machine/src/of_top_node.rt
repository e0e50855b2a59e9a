//! What this crate and those above it name of `top_node`.

pub use inspector::of_top_node::TopState;
