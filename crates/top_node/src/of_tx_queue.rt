//! What this crate and those above it name of `tx_queue`.

pub use directory::of_tx_queue::Queue;
