//! What this crate and those above it name of `top_node`.

pub use start_parts::of_top_node::TopState;
