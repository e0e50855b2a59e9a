//! Why a file is no litmus test.

/// What is wrong in a line.
#[derive(Clone, Copy, Debug, PartialEq, Eq)]
pub enum Fault {
    /// A comment that begins here has no end.
    OpenComment,
    /// The first line with a word doesn't begin with `RISCV`.
    OtherArchitecture,
    BadName,
    /// No `{`.
    NoInit,
    BadByte,
    LongWord,
    /// The initial state has no end.
    OpenInit,
    /// No word with which a condition begins.
    NoCondition,
    /// Tokens follow the last `;` of the program.
    OpenRow,
    /// The program doesn't begin with `P0 | P1 | ..`.
    NoThreads,
    TooManyRows,
    /// The row has more cells than there are threads, or fewer.
    BadRow,
    BadOperands,
    BadNumber,
    /// The instruction is one of the machines with registers of 64 bits.
    SixtyFourBits,
    UnknownInstruction,
    /// The thread has this label twice.
    SameLabel,
    /// The thread doesn't have this label.
    NoLabel,
    UnsupportedType,
    NoThread,
    BadRegister,
    BadInit,
    /// An earlier piece says what this register or location begins with.
    Twice,
    BadLocations,
    Filter,
    BadCondition,
}

/// Why a file is no litmus test.
#[derive(Clone, Copy, Debug, PartialEq, Eq)]
pub enum TestRefusal {
    /// It has more than 65,536 bytes.
    TooLong,
    InLine { line: u32, fault: Fault },
    /// This many registers and locations are observed.
    TooManyObserved(u32),
    /// This many locations are named.
    TooManyLocations(u32),
}

/// Why a test has no image for a tree.
#[derive(Clone, Copy, Debug, PartialEq, Eq)]
pub enum ImageRefusal {
    /// This many threads, and fewer leaves.
    TooManyThreads(u32),
    /// This many threads, and another number of places.
    OtherPlaces(u32),
    /// The first place that is no leaf.
    NoLeaf(u32),
}
