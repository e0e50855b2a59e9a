//! A directory becomes a copy of another one.

ghost use Rattle.std.specs.Prelude.{◌≡◌, length};

use crate::DirState;

impl<const WORDS: usize> DirState<WORDS> {
    /// Becomes a copy of another directory with the same sizes, of as many items. It takes no memory.
    pub fn copy_from(&mut self, other: &Self)
        requires sizes { self.old.sizes ≡ other.now.sizes }
        requires items { length self.old.items ≡ length other.now.items }
        ensures { self.new ≡ other.now }
    {
        self.bus = other.bus;
        self.level = other.level;
        self.kept.copy_from(&other.kept);
        self.down.copy_from(&other.down);
        self.requests.copy_from(&other.requests);
        self.replies.copy_from(&other.replies);
        self.parking.copy_from(&other.parking);
        self.count = other.count;
        self.epoch = other.epoch;
    }
}
