//! A leaf becomes a copy of another one.

ghost use Rattle.std.specs.Prelude.{◌≡◌, length};

use crate::Leaf;

impl<const WAYS: usize, const WORDS: usize> Leaf<WAYS, WORDS> {
    /// Becomes a copy of another leaf with the same sizes, of as many items. It takes no memory.
    pub fn copy_from(&mut self, other: &Self)
        requires sizes { self.old.sizes ≡ other.now.sizes }
        requires items { length self.old.ways ≡ length other.now.ways }
        ensures { self.new ≡ other.now }
    {
        self.number = other.number;
        self.entries.copy_from(&other.entries);
        self.slot = other.slot;
        self.replies.copy_from(&other.replies);
        self.reservation = other.reservation;
        self.hart.copy_from(&other.hart);
    }
}
