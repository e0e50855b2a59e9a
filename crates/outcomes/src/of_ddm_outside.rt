//! What this crate and those above it name of `ddm_outside`.

pub use measuring::of_ddm_outside::{
    Failed, FileShelf, MemoryShelf, MemorySink, NamedFile, Shelf, Sink, StdSink,
};
