//! What this crate and those above it name of `ddm_outside`.

pub use asked_commands::of_ddm_outside::{MemoryShelf, NamedFile, SoundShelf, SoundSink};
