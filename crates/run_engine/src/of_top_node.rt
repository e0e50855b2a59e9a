//! What this crate and those above it name of `top_node`.

pub use any_runs::of_top_node::TopState;
