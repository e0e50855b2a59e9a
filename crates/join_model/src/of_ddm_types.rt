//! What this crate and those above it name of `ddm_types`.

pub use outcome_model::of_ddm_types::NoMemory;
