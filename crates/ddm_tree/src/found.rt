//! An item's current copy.

ghost use Rattle.std.specs.Prelude.{◌≡◌, ◌<◌, All, length, map, option_map};
ghost use Rattle.ddm_tree.specs.TreeModel.State.States.{is_held};
ghost use Rattle.ddm_tree.specs.TreeModel.State.Values.{nodes};
ghost use Rattle.ddm_tree.specs.TreeModel.Turns.Found.{found_of, place_among, place_at, words_among};
ghost use Rattle.ddm_tree.specs.Reads.{own_place, own_words};
ghost use Rattle.ddm_tree.specs.Ready.{IsItemIn};

use crate::of_ddm_types::{Hold, ItemId, LeafNo, Words};
use crate::of_directory::DirState;
use crate::of_item_states::Parent;
use crate::of_tree_model::{CopyPlace, LeafSpot};
use crate::subtree::Subtree;
use std::marker::Model;

/// A copy of an item: where it stands, and its words.
#[derive(Clone, Copy)]
pub struct Found<const WORDS: usize> {
    pub at: CopyPlace,
    pub words: Words<WORDS>,
}

impl<const WORDS: usize> Model for Found<WORDS> {
    ghost use Rattle.ddm_tree.specs.TreeModel.Turns.Found.{FoundValue};

    ghost Value = { FoundValue };

    ghost view = { λ f. record { place = f.at; words = f.words } };

    ghost inverse = { λ v. record { at = v.place; words = v.words } };
}

fn is_held(hold: Hold) -> bool
    ensures { result ≡ is_held hold }
{
    match hold {
        Hold::Invalid => false,
        Hold::Shared | Hold::Exclusive => true,
    }
}

/// An entry's place in a leaf.
pub fn place_at(leaf: LeafNo, spot: LeafSpot) -> CopyPlace
    ensures { result ≡ place_at leaf spot }
{
    match spot {
        LeafSpot::Way(way) => CopyPlace::LeafWay { leaf, way },
        LeafSpot::Buffer(place) => CopyPlace::LeafBuffer { leaf, place },
    }
}

/// A directory's own copy of an item: the last one in its down list, else the parked one.
pub(crate) fn own_copy<const WORDS: usize>(
    state: &DirState<WORDS>,
    item: ItemId,
) -> Option<Found<WORDS>>
    requires { item < length state.now.items }
    ensures place { option_map (λ f. f.place) result ≡ own_place item state.now }
    ensures words { option_map (λ f. f.words) result ≡ own_words item state.now }
{
    let bus = state.bus();
    if let Some((place, words)) = state.last_copy(item) {
        let at = CopyPlace::DownList { bus, place };
        return Some(Found { at, words });
    }
    let place = state.parked_at(item)?;
    let words = state.parked(item)?;
    let at = CopyPlace::Parking { bus, place };
    Some(Found { at, words })
}

/// The found copy of an item below these children: that of the first one that holds it.
pub(crate) fn found_among<const WORDS: usize, C: Subtree<WORDS>>(
    children: &[C],
    item: ItemId,
) -> Option<Found<WORDS>>
    requires { All (IsItemIn item) (map C.value children.now) }
    ensures { result
        ≡ found_of (place_among item (nodes (map C.value children.now)))
        (words_among item (nodes (map C.value children.now))) }
{
    for child in children {
        if is_held(child.hold(item)) {
            return child.found_below(item);
        }
    }
    None
}
