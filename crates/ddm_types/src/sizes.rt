/// What a leaf or a directory holds of an item.
#[derive(Clone, Copy, Debug, PartialEq, Eq)]
pub enum Hold {
    Invalid,
    Shared,
    Exclusive,
}

/// The state of an item's entry in a leaf: shared, exclusive, waiting (shared, and an erase was sent),
/// reading, and reading-and-waiting (a read was sent for a write).
#[derive(Clone, Copy, Debug, PartialEq, Eq)]
pub enum LeafState {
    Shared,
    Exclusive,
    Waiting,
    Reading,
    ReadingWaiting,
}

/// Bytes of memory that a segment or a stack covers.
#[derive(Clone, Copy, Debug, PartialEq, Eq)]
pub struct Span {
    pub start: u32,
    /// The number of bytes, which may be 0.
    pub bytes: u64,
    pub writable: bool,
}

/// What the harts begin with: the first pc, how many they are, and their stacks, which lie one behind
/// the other from `stack_base` on, each of `stack_bytes` bytes.
#[derive(Clone, Copy, Debug, PartialEq, Eq)]
pub struct Start {
    pub entry: u32,
    pub harts: u32,
    pub stack_base: u32,
    pub stack_bytes: u32,
}

/// How many sets a leaf's memory has, and how many places its buffer, the parking of a directory and the
/// lists of transactions have.
#[derive(Clone, Copy, Debug, PartialEq, Eq)]
pub struct TreeSizes {
    pub sets: u32,
    pub buffer: u32,
    pub parking: u32,
    pub down: u32,
    pub requests: u32,
    pub replies: u32,
}

/// How many leaves, buses and levels of buses a tree has.
#[derive(Clone, Copy, Debug, PartialEq, Eq)]
pub struct TreeCounts {
    pub leaves: u32,
    pub buses: u32,
    pub depth: u32,
}
