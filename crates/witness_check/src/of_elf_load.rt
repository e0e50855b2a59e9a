//! What this crate and those above it name of `elf_load`.

pub use start_memory::of_elf_load::{Image, ImageRefusal, Segment, copied_code, load, write_image};
