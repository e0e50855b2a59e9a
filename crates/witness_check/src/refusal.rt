//! Why a text isn't accepted as a witness.

ghost use Rattle.std.specs.Prelude.{◌≡◌};
ghost use Rattle.witness_check.specs.declared.refusal.CheckRefusal.TheVariants as refusal;

use crate::of_ddm_types::NoMemory;

/// Why a text isn't accepted as a witness. Lines are counted from 1.
#[derive(Clone, Copy, Debug, PartialEq, Eq)]
pub enum CheckRefusal {
    /// The text has more than 168,820,736 bytes.
    TooLong,
    /// The number of items of segments and stacks, which is above 65,536.
    TooManyItems(u64),
    /// The stack of this hart and the segment of this header have a byte in common.
    StackOverlap { hart: u32, header: u32 },
    /// The line isn't that of an operation, or the text ends before its line feed.
    BadLine(u32),
    /// The line is behind 1,048,576 others.
    TooManyLines(u32),
    /// The line's operation isn't the next step of its hart, behind those of the lines before it.
    NotLegal(u32),
    NoMemory,
}

impl From<NoMemory> for CheckRefusal {
    ghost from_gives = { λ _ e. e ≡ refusal.NoMemory };

    fn from(_: NoMemory) -> Self {
        CheckRefusal::NoMemory
    }
}
