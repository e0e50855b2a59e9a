//! Directories are put over their children before the run.

ghost use Rattle.std.specs.Prelude.{◌≡◌, ◌+◌, ◌<◌, ◌≤◌, ◌^◌, ◌++◌, All, IfOk, OnOk, drop, length, map, sum, take, if◌then◌else◌};
ghost use Rattle.std.specs.Vec.Iter.{into_iter_items, into_iter_len};
ghost use Rattle.ddm_tree.specs.TreeModel.Start.Nodes.{cut_in, dir_over, dir_sizes, dirs_over, held_below};
ghost use Rattle.ddm_tree.specs.DdmTypes.declared.sizes.Hold.TheVariants.{Exclusive};
ghost use Rattle.ddm_tree.specs.TreeModel.State.Directory.{with_hold};
ghost use Rattle.ddm_tree.specs.TreeModel.State.Values.{dir_node, nodes};
ghost use Rattle.ddm_tree.specs.Holders.{IsHolder};

use crate::dir::Dir;
use crate::marking::mark_children;
use crate::of_ddm_types::{BusNo, ItemId, NoMemory, TreeSizes};
use crate::of_directory::DirState;
use crate::subtree::Subtree;
use std::alloc::Global;
use std::vec::IntoIter;

/// Which of so many items one of the children holds.
fn held_items<const WORDS: usize, C: Subtree<WORDS>>(
    alloc: Global,
    items: u32,
    children: &[C],
) -> Result<Vec<bool>, NoMemory>
    requires some { 0 < length children.now }
    requires holders { All (IsHolder items) (map C.value children.now) }
    ensures { IfOk result (λ held. held.items ≡ held_below (map C.value children.now)) }
{
    let mut held = vec![in alloc; false; items as usize]?;
    mark_children(children, &mut held);
    Ok(held)
}

/// The directory holds the item Exclusive, where `held` says so.
fn hold_if<const WORDS: usize>(state: &mut DirState<WORDS>, item: ItemId, held: bool)
    requires { item < length state.old.items }
    ensures { state.new ≡ (if held then with_hold item Exclusive state.old else state.old) }
{
    if held {
        state.start_hold(item);
    }
}

/// The directory over these children before the run: it holds, Exclusive, what one of them does.
fn directory<const WORDS: usize, C: Subtree<WORDS> + Drop>(
    alloc: Global,
    config: &TreeSizes,
    items: u32,
    level: u32,
    bus: BusNo,
    children: Vec<C>,
) -> Result<Dir<WORDS, C>, NoMemory>
    requires words_fit { WORDS < 2 ^ 32 }
    requires below_top { 0 < level }
    requires deepest { level ≤ 3 }
    requires bus { 0 < bus }
    requires some { 0 < length children.items }
    requires holders { All (IsHolder items) (map C.value children.items) }
    ensures { IfOk result
        (λ d. dir_node d.state (nodes (map C.value d.children.items))
        ≡ dir_over (dir_sizes config.now WORDS) level bus (map C.value children.items)) }
{
    let mut state = DirState::new(alloc, bus, level, items, config)?;
    let held = held_items(alloc, items, &children)?;
    for item in 0..items {
        hold_if(&mut state, ItemId(item), held[item as usize]);
    }
    Ok(Dir::new(state, children))
}

/// Puts the next of these children behind the others.
fn push_next<C: Drop>(own: &mut Vec<C>, rest: &mut IntoIter<C>) -> Result<(), NoMemory>
    requires { 0 < into_iter_len rest.old }
    ensures items { OnOk result (own.new.items ++ into_iter_items rest.new ≡ own.old.items ++ into_iter_items rest.old) }
    ensures more { OnOk result (length own.new.items ≡ length own.old.items + 1) }
    ensures fewer { OnOk result (into_iter_len rest.new + 1 ≡ into_iter_len rest.old) }
{
    match rest.next() {
        Some(child) => Ok(own.push(child)?),
        None => unreachable!(),
    }
}

/// So many of these children, from the front.
fn take_next<C: Drop>(alloc: Global, rest: &mut IntoIter<C>, count: u32) -> Result<Vec<C>, NoMemory>
    requires known { into_iter_len rest.old ≡ length (into_iter_items rest.old) }
    requires enough { count ≤ length (into_iter_items rest.old) }
    ensures own { IfOk result (λ own. own.items ≡ take count (into_iter_items rest.old)) }
    ensures rest { IfOk result (λ own. into_iter_items rest.new ≡ drop count (into_iter_items rest.old)) }
    ensures known { IfOk result (λ own. into_iter_len rest.new ≡ length (into_iter_items rest.new)) }
{
    let mut own = Vec::new(alloc);
    for _ in 0..count {
        push_next(&mut own, rest)?;
    }
    Ok(own)
}

/// Directories over runs of these children, as many in each run as `widths` says, before the run. Their level is the
/// number of buses above theirs; their buses are numbered from `first` on.
pub fn directories<const WORDS: usize, C: Subtree<WORDS> + Drop>(
    alloc: Global,
    config: &TreeSizes,
    items: u32,
    level: u32,
    first: u32,
    widths: &[u32],
    children: Vec<C>,
) -> Result<Vec<Dir<WORDS, C>>, NoMemory>
    requires words_fit { WORDS < 2 ^ 32 }
    requires below_top { 0 < level }
    requires deepest { level ≤ 3 }
    requires some { 0 < first }
    requires buses { first + length widths.now < 2 ^ 32 }
    requires widths { All (λ w. 0 < w) widths.now }
    requires whole { sum widths.now ≡ length children.items }
    requires holders { All (IsHolder items) (map C.value children.items) }
    ensures { IfOk result
        (λ ds. map (λ d. dir_node d.state (nodes (map C.value d.children.items))) ds.items
        ≡ dirs_over (dir_sizes config.now WORDS) level first (cut_in widths.now (map C.value children.items))) }
{
    let mut dirs = Vec::new(alloc);
    let mut rest = children.into_iter();
    for i in 0..widths.len() {
        let own = take_next(alloc, &mut rest, widths[i])?;
        let bus = BusNo(first + i as u32);
        dirs.push(directory(alloc, config, items, level, bus, own)?)?;
    }
    Ok(dirs)
}
