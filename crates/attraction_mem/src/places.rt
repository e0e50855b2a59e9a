//! The ways of a set: which is an item's, and which is free.

ghost use Rattle.std.specs.Prelude.{◌≡◌, ◌+◌, ◌*◌, ◌%◌, ◌<◌, ◌≤◌, length, None, IfSome, IfNone, slice_index_or};
ghost use Rattle.attraction_mem.specs.Places.{IsSized, HasTag, HasNoTag, AreTaken, is_of};

use ddm_types::{Divisor, ItemId, LeafState};

/// The place of way 0 of the item's set.
#[tactic(auto, using(crate::proofs::Sizes::row_fits, crate::proofs::Sizes::small_product))]
pub fn first_place<const WAYS: usize>(sets: &Divisor, item: ItemId) -> usize
    requires { IsSized WAYS sets.now (sets.now * WAYS) }
    ensures place { result ≡ item % sets.now * WAYS }
    ensures fits { result + WAYS ≤ sets.now * WAYS }
    ensures few { sets.now * WAYS ≤ 16384 }
{
    sets.remainder(item.0) as usize * WAYS
}

/// Whether the tag is the item's.
#[inline(always)]
fn is_of(tag: Option<(ItemId, LeafState)>, item: ItemId) -> bool
    ensures { result ≡ is_of tag item }
{
    match tag {
        Some((held, _)) => held.0 == item.0,
        None => false,
    }
}

/// The place of the item's tag, and its state. All ways are looked at, and the one is chosen without a branch: in which way an item
/// stands can't be foreseen.
#[inline(always)]
pub fn find_tag<const WAYS: usize>(
    sets: &Divisor,
    tags: &[Option<(ItemId, LeafState)>],
    item: ItemId,
) -> Option<(usize, LeafState)>
    requires { IsSized WAYS sets.now (length tags.now) }
    ensures found { IfSome result (λ at. HasTag tags.now at.0 item at.1) }
    ensures exists { IfSome result (λ at. at.0 < length tags.now) }
    ensures absent { IfNone result (HasNoTag tags.now (item % sets.now * WAYS) WAYS item) }
{
    let first = first_place::<WAYS>(sets, item);
    let mut found = WAYS;
    for way in 0..WAYS {
        found = if is_of(tags[first + way], item) {
            way
        } else {
            found
        };
    }
    if found == WAYS {
        return None;
    }
    let place = first + found;
    let (_, state) = tags[place]?;
    Some((place, state))
}

/// The lowest free way of the item's set.
pub fn find_free<const WAYS: usize>(
    sets: &Divisor,
    tags: &[Option<(ItemId, LeafState)>],
    item: ItemId,
) -> Option<usize>
    requires { IsSized WAYS sets.now (length tags.now) }
    ensures exists { IfSome result (λ way. way < WAYS) }
    ensures free { IfSome result (λ way. slice_index_or tags.now (item % sets.now * WAYS + way) None ≡ None) }
    ensures lower { IfSome result (AreTaken tags.now (item % sets.now * WAYS)) }
    ensures full { IfNone result (AreTaken tags.now (item % sets.now * WAYS) WAYS) }
{
    let first = first_place::<WAYS>(sets, item);
    for way in 0..WAYS {
        if tags[first + way].is_none() {
            return Some(way);
        }
    }
    None
}
