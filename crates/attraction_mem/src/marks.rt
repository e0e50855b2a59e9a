//! Which classes of items may be in a set.

ghost use Rattle.std.specs.Prelude.{◌≡◌};
ghost use Rattle.attraction_mem.specs.Marks.{is_marked, marked};

use ddm_types::{Divisor, ItemId};

/// The items of a set are in so many classes, by what is left of their number where the set's is taken away.
const CLASSES: u32 = 64;

/// Whether the item's class is marked in its set.
#[inline(always)]
pub fn is_marked(sets: &Divisor, marks: &[u64], item: ItemId) -> bool
    ensures { result ≡ is_marked sets.now item marks.now }
{
    let (class, set) = sets.divide(item.0);
    match marks.get(set as usize) {
        Some(of_set) => *of_set >> (class % CLASSES) & 1 == 1,
        None => false,
    }
}

/// Marks the item's class in its set.
#[inline(always)]
pub fn mark(sets: &Divisor, marks: &mut [u64], item: ItemId)
    ensures { marks.new ≡ marked sets.now item marks.old }
{
    let (class, set) = sets.divide(item.0);
    if (set as usize) < marks.len() {
        marks[set as usize] = marks[set as usize] | 1 << (class % CLASSES);
    }
}
