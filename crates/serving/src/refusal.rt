//! Why a list isn't served.

/// Why turns aren't made: there are more than a schedule has, or there is no memory for them.
#[derive(Clone, Copy, Debug, PartialEq, Eq, Drop)]
pub(crate) enum Stop {
    TooMany,
    NoMemory,
}

/// The line of the list that isn't what its hart does next, or with whose turns there are too many; or no memory. Lines
/// are counted from 1.
#[derive(Clone, Copy, Debug, PartialEq, Eq, Drop)]
pub enum ServeRefusal {
    NotServed(u32),
    TooManyTurns(u32),
    NoMemory,
}
