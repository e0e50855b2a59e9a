//! What this crate and those above it name of `ddm_types`.

pub use asked_commands::of_ddm_types::Start;
