//! Why a file isn't a tree file.

ghost use Rattle.std.specs.Prelude.{◌≡◌};
ghost use Rattle.tree_config.specs.declared.refusal.TreeRefusal.TheVariants.{NoMemory};

use crate::of_ddm_types::NoMemory;
use ddm_text::Text;
use thiserror::Error;

/// The keys of a tree file, in the order in which they are judged.
#[derive(Clone, Copy, Debug, PartialEq, Eq)]
pub enum TreeKey {
    Shape,
    Ways,
    Sets,
    Buffer,
    Parking,
    Down,
    Requests,
    Replies,
    StackBase,
    StackBytes,
    ItemBytes,
}

/// Why a file isn't a tree file.
#[derive(Debug, Drop, Error)]
pub enum TreeRefusal {
    #[error("the tree file is too long")]
    TooLong,
    #[error("the tree file isn't TOML")]
    NotToml,
    /// The least key, by its bytes, that no tree file has.
    #[error("the tree file has an unknown key")]
    UnknownKey(Text),
    #[error("the tree file lacks a key")]
    MissingKey(TreeKey),
    #[error("a value of the tree file has the wrong type")]
    WrongType(TreeKey),
    /// How many bytes of the shape's text some shape begins with.
    #[error("the text of the shape isn't a shape")]
    BadShape(u32),
    #[error("two leaves of the shape have different depths")]
    Uneven,
    #[error("the shape is too deep")]
    TooDeep,
    #[error("a group of the shape has too many nodes")]
    TooWide,
    #[error("the shape has too many leaves")]
    TooManyLeaves,
    #[error("a number of the tree file is out of its range")]
    OutOfRange(TreeKey),
    #[error("no memory")]
    NoMemory,
}

impl From<NoMemory> for TreeRefusal {
    ghost from_gives = { λ _ r. r ≡ NoMemory };

    fn from(_: NoMemory) -> Self {
        TreeRefusal::NoMemory
    }
}
