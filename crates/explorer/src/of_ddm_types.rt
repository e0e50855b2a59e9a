//! What crates above this one name of `ddm_types`.

pub use ddm_types::{NoMemory, Turn};
