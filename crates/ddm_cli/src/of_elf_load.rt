//! What this crate and those above it name of `elf_load`.

pub use witness_check::of_elf_load::{Image, ImageRefusal, Segment, load, write_image};
