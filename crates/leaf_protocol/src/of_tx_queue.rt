//! What this crate and those above it name of `tx_queue`.

pub use tx_queue::Queue;
