//! What this crate and those above it name of `elf_load`.

pub use start_memory::of_elf_load::{Image, Segment, copied_code};
