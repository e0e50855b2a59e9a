//! What this crate and those above it name of `elf_load`.

pub use asked_commands::of_elf_load::load;
