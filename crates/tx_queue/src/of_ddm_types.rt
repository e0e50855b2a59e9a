//! What this crate and those above it name of `ddm_types`.

pub use state_reading::of_ddm_types::{ItemId, NoMemory, TxKind, Words};
