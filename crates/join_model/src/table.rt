//! Which tables there are, and why a file isn't accepted as one.

/// What the lines of a table count.
#[derive(Clone, Copy, Debug, PartialEq, Eq)]
pub enum TableKind {
    /// The outcomes of seeds, each over the same number of turns.
    Outcomes,
    /// The outcomes of recorded runs, with how each ended.
    Survey,
}

/// Why a file isn't accepted as the next table. Lines are counted from 1.
#[derive(Clone, Copy, Debug, PartialEq, Eq)]
pub enum TableRefusal {
    /// The file has more than 67,108,864 bytes.
    TooLong,
    /// The line isn't the one that has to be there.
    BadLine(u32),
    /// The bytes end in this line, before the line `end` is complete.
    NoEnd(u32),
    /// A byte follows the line `end`.
    AfterEnd(u32),
    /// The tables before it are of the other kind.
    OtherKind,
    /// With those before it there are more runs than 2^64 - 1.
    TooManyRuns,
}
