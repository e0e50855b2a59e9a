//! The paths to leaves and buses.

ghost use Rattle.std.specs.Prelude.{◌≡◌, ℕ, ◌<◌, ◌≤◌, All, List, Some, true, IfOk, length, map, option_map, reverse, slice_get, vec_items};
ghost use Rattle.ddm_tree.specs.TreeModel.State.Values.{dir_node, nodes};
ghost use Rattle.ddm_tree.specs.TreeModel.State.Shape.{skeleton, skeletons, widths_fit};
ghost use Rattle.ddm_tree.specs.Path.{path_to, path_among, is_bus_named};
ghost use Rattle.ddm_tree.specs.TreeModel.Turns.Tree.{leaf_of_number, bus_of_number};
ghost use Rattle.ddm_tree.specs.Named.{name_of};
ghost use Rattle.ddm_tree.specs.Ready.{Leads};

use crate::named::Named;
use crate::of_ddm_types::{BusNo, ChildNo, LeafNo, NoMemory};
use crate::of_item_states::Parent;
use crate::subtree::Subtree;
use std::alloc::Global;

/// The path to a leaf or a bus below these children, from its end on.
pub(crate) fn path_up_among<const WORDS: usize, C: Subtree<WORDS>>(
    alloc: Global,
    children: &[C],
    name: &Named,
) -> Result<Option<Vec<ChildNo>>, NoMemory>
    requires few { length children.now ≤ 16 }
    requires buses { All (λ n. widths_fit (skeleton n) ≡ true) (map C.value children.now) }
    ensures { IfOk result
        (λ found. option_map vec_items found
        ≡ option_map reverse (path_among (name_of name.now) 0 (skeletons (nodes (map C.value children.now))))) }
{
    for i in 0..children.len() {
        if let Some(mut path) = children[i].path_up(alloc, name)? {
            path.push(ChildNo(i as u32))?;
            return Ok(Some(path));
        }
    }
    Ok(None)
}

/// The path to a directory's own bus, or to a leaf or a bus below it, from its end on.
pub(crate) fn path_up_under<const WORDS: usize, P: Parent<WORDS>, C: Subtree<WORDS>>(
    alloc: Global,
    parent: &P,
    children: &[C],
    name: &Named,
) -> Result<Option<Vec<ChildNo>>, NoMemory>
    requires { widths_fit (skeleton (dir_node (P.state parent.now) (nodes (map C.value children.now)))) ≡ true }
    ensures { IfOk result
        (λ found. option_map vec_items found
        ≡ option_map reverse
        (path_to (name_of name.now)
        (skeleton (dir_node (P.state parent.now) (nodes (map C.value children.now)))))) }
{
    if is_bus(name, parent.bus()) {
        return Ok(Some(Vec::new(alloc)));
    }
    path_up_among(alloc, children, name)
}

/// Whether this is the name of a bus.
fn is_bus(name: &Named, bus: BusNo) -> bool
    ensures { result ≡ is_bus_named (name_of name.now) bus }
{
    match name {
        Named::Leaf(_) => false,
        Named::Bus(number) => bus == *number,
    }
}

/// The path from a directory to a leaf or a bus below it; no steps where it isn't there.
fn path_down<const WORDS: usize, P: Parent<WORDS>, C: Subtree<WORDS>>(
    alloc: Global,
    parent: &P,
    children: &[C],
    name: &Named,
) -> Result<Vec<ChildNo>, NoMemory>
    requires { widths_fit (skeleton (dir_node (P.state parent.now) (nodes (map C.value children.now)))) ≡ true }
    ensures { IfOk result
        (λ v. (path : List ℕ) →
        Leads (name_of name.now) path (dir_node (P.state parent.now) (nodes (map C.value children.now))) →
        v.items ≡ path) }
{
    match path_up_under(alloc, parent, children, name)? {
        Some(mut path) => {
            path.reverse();
            Ok(path)
        }
        None => Ok(Vec::new(alloc)),
    }
}

/// The path to each leaf below a directory, by number.
pub(crate) fn leaf_paths<const WORDS: usize, P: Parent<WORDS>, C: Subtree<WORDS>>(
    alloc: Global,
    parent: &P,
    children: &[C],
    leaves: u32,
) -> Result<Vec<Vec<ChildNo>>, NoMemory>
    requires { widths_fit (skeleton (dir_node (P.state parent.now) (nodes (map C.value children.now)))) ≡ true }
    ensures { IfOk result
        (λ ps. (k : ℕ) (path : List ℕ) → k < leaves →
        Leads (leaf_of_number k) path (dir_node (P.state parent.now) (nodes (map C.value children.now))) →
        slice_get (map vec_items ps.items) k ≡ Some path) }
{
    let mut paths = Vec::new(alloc);
    for leaf in 0..leaves {
        paths.push(path_down(alloc, parent, children, &Named::Leaf(LeafNo(leaf)))?)?;
    }
    Ok(paths)
}

/// The path to each bus below a directory, by number.
pub(crate) fn bus_paths<const WORDS: usize, P: Parent<WORDS>, C: Subtree<WORDS>>(
    alloc: Global,
    parent: &P,
    children: &[C],
    buses: u32,
) -> Result<Vec<Vec<ChildNo>>, NoMemory>
    requires { widths_fit (skeleton (dir_node (P.state parent.now) (nodes (map C.value children.now)))) ≡ true }
    ensures { IfOk result
        (λ ps. (k : ℕ) (path : List ℕ) → k < buses →
        Leads (bus_of_number k) path (dir_node (P.state parent.now) (nodes (map C.value children.now))) →
        slice_get (map vec_items ps.items) k ≡ Some path) }
{
    let mut paths = Vec::new(alloc);
    for bus in 0..buses {
        paths.push(path_down(alloc, parent, children, &Named::Bus(BusNo(bus)))?)?;
    }
    Ok(paths)
}
