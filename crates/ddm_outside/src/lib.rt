//! The outside: where files are read from, and where bytes are written to.
#![tactic(auto)]

mod calls;
mod file_shelf;
mod memory_shelf;
mod memory_sink;
mod named_file;
mod named_files;
pub mod of_ddm_text;
pub mod of_ddm_types;
mod opened_file;
mod opened_files;
mod outside;
mod sound_shelf;
mod sound_sink;
mod std_sink;

pub use file_shelf::FileShelf;
pub use memory_shelf::MemoryShelf;
pub use memory_sink::MemorySink;
pub use named_file::NamedFile;
pub use outside::{Failed, Shelf, Sink};
pub use sound_shelf::SoundShelf;
pub use sound_sink::SoundSink;
pub use std_sink::StdSink;
