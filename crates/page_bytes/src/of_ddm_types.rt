//! What this crate names of `ddm_types`.

pub use ddm_text::of_ddm_types::NoMemory;
