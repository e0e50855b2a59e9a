//! What this crate and those above it name of `top_node`.

pub use top_node::TopState;
