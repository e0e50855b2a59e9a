//! What this crate and those above it name of `tx_queue`.

pub use leaf_protocol::of_tx_queue::Queue;
