//! What crates above this one name of `ddm_outside`.

pub use report::of_ddm_outside::{
    Failed, FileShelf, MemoryShelf, MemorySink, NamedFile, Shelf, Sink, StdSink,
};
