//! What this crate and those above it name of `ddm_types`.

pub use ddm_cli::of_ddm_types::{NoMemory, Start};
