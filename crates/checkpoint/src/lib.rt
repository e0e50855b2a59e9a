//! Checkpoints: a machine and what its turns came to, as the bytes of a file.
#![tactic(auto)]

ghost use Rattle.std.specs.Prelude.{◌≡◌};
ghost use Rattle.checkpoint.specs.declared.ResumeRefusal.TheVariants.{NoMemory};

pub mod examples;
mod file;
mod front;
pub mod laws;
pub mod of_any_machine;
pub mod of_ddm_types;
pub mod of_operation_list;
pub mod of_state_reading;
pub mod of_state_words;
pub mod of_text_model;
mod pieces;
mod resuming;
mod saving;

use crate::of_ddm_types::NoMemory;
pub use file::CheckpointFile;
pub use pieces::CheckpointPieces;
pub use resuming::{MOST_BYTES, resume};
pub use saving::save;

/// Why a file is no checkpoint of a machine of this tree and image. Words are counted from 0.
#[derive(Clone, Copy, Debug, PartialEq, Eq)]
pub enum ResumeRefusal {
    /// The file has more than 512 MiB.
    TooLong,
    /// There are fewer than two words, or the first one is another.
    NotCheckpoint,
    /// The second word, where that isn't 1.
    WrongVersion(u32),
    /// The bytes end before the end of this word.
    Cut(u32),
    /// This word says something else of the machine.
    OtherMachine(u32),
    /// This word can't stand there.
    BadWord(u32),
    /// A byte follows the end word.
    AfterEnd,
    /// The entries, the buffer and the slot of this leaf can't be together.
    BrokenLeaf(u32),
    /// A rule of this bus is broken, at this item.
    BrokenRule { bus: u32, item: u32 },
    /// A stamp in the down list over this bus is out of order.
    BrokenStamp(u32),
    /// The key of this operation, counted from 0, isn't one of its leaf.
    BrokenKey(u32),
    NoMemory,
}

impl From<NoMemory> for ResumeRefusal {
    ghost from_gives = { λ _ r. r ≡ NoMemory };

    fn from(_: NoMemory) -> Self {
        ResumeRefusal::NoMemory
    }
}
