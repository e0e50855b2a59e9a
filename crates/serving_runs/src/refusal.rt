//! Why operations aren't served.

/// Why operations aren't served: the items of one set of a leaf are more than its ways; or the line that isn't what its
/// hart does next, or with whose turns there are too many; or no memory. Lines are counted from 1.
#[derive(Clone, Copy, Debug, PartialEq, Eq, Drop)]
pub enum ServedRefusal {
    NoRoom,
    NotServed(u32),
    TooManyTurns(u32),
    NoMemory,
}
