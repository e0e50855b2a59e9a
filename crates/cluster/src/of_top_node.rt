//! What this crate and those above it name of `top_node`.

pub use ddm_tree::of_top_node::TopState;
