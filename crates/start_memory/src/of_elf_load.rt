//! What this crate and those above it name of `elf_load`.

pub use elf_load::{Image, ImageRefusal, Segment, copied_code, load, write_image};
