//! A list becomes a copy of another one.

ghost use Rattle.std.specs.Prelude.{◌≡◌};

use crate::Queue;
use crate::of_item_states::Named;

impl<T: Named + Copy> Queue<T> {
    /// Becomes a copy of another list with as many places, of as many items. It takes no memory.
    pub fn copy_from(&mut self, other: &Self)
        requires capacity { self.old.capacity ≡ other.now.capacity }
        requires items { self.old.items ≡ other.now.items }
        ensures { self.new ≡ other.now }
    {
        let (front, back) = other.ring.as_slices();
        self.ring.clear();
        self.ring.extend_from_slice(front);
        self.ring.extend_from_slice(back);
        self.counts.copy_from_slice(&other.counts);
    }
}
