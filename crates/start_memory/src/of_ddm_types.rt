//! What this crate and those above it name of `ddm_types`.

pub use elf_load::of_ddm_types::{ItemId, Items, NoMemory, Span, Start};
