//! What this crate and those above it name of `ddm_outside`.

pub use ddm_cli::of_ddm_outside::{Failed, MemoryShelf, MemorySink, NamedFile, Shelf, Sink};
pub use ddm_outside::{SoundShelf, SoundSink};
