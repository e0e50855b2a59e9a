//! Why there is no machine of a tree and an image.

ghost use Rattle.std.specs.Prelude.{◌≡◌};
ghost use Rattle.run_engine.specs.declared.refusal.BuildRefusal.TheVariants as refusal;

use crate::of_ddm_types::{ItemId, NoMemory};
use thiserror::Error;

/// Why there is no machine of a tree and an image.
#[derive(Clone, Copy, Debug, PartialEq, Eq, Error)]
pub enum BuildRefusal {
    /// The number of items of segments and stacks, which is above 65,536.
    #[error("there are too many items")]
    TooManyItems(u64),
    /// The stack of this hart and the segment of this header have a byte in common.
    #[error("a stack meets a segment")]
    StackOverlap { hart: u32, header: u32 },
    /// The first item for which no leaf has a place.
    #[error("an item has no place")]
    NoPlace(ItemId),
    #[error("no memory")]
    NoMemory,
}

impl From<NoMemory> for BuildRefusal {
    ghost from_gives = { λ _ e. e ≡ refusal.NoMemory };

    fn from(_: NoMemory) -> Self {
        BuildRefusal::NoMemory
    }
}
