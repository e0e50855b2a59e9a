//! What names an item.

ghost use Rattle.std.specs.Prelude.{◌≡◌, ℕ};

use crate::DownEntry;
use crate::of_ddm_types::{ItemId, TxKind, Words};

/// What names an item: an entry of a list of transactions.
pub trait Named {
    ghost named: { Self → ℕ };

    /// The item that it names.
    fn item(&self) -> ItemId
        ensures { result ≡ named self.now };
}

impl<const WORDS: usize> Named for DownEntry<WORDS> {
    ghost named = { λ e. e.item };

    fn item(&self) -> ItemId {
        self.item
    }
}

impl Named for (TxKind, ItemId) {
    ghost named = { λ e. e.1 };

    fn item(&self) -> ItemId {
        self.1
    }
}

impl<const WORDS: usize> Named for (ItemId, Words<WORDS>) {
    ghost named = { λ e. e.0 };

    fn item(&self) -> ItemId {
        self.0
    }
}
