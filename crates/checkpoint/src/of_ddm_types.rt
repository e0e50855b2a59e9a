//! What this crate and those above it name of `ddm_types`.

pub use spelling_laws::of_ddm_types::{NoMemory, Op};
