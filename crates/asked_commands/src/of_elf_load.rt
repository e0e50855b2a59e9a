//! What this crate and those above it name of `elf_load`.

pub use ddm_cli::of_elf_load::{Segment, load, write_image};
