//! What can be asked of a machine of any tree: the found copy of an item, the state of its entry at a leaf, and what a bus has
//! granted.
#![tactic(auto)]

mod all_copies;
pub mod of_cluster;
pub mod of_ddm_tree;
pub mod of_ddm_types;
pub mod of_directory;
pub mod of_item_states;
pub mod of_leaf_protocol;
pub mod of_operation_list;
pub mod of_rv_hart;
pub mod of_state_reading;
pub mod of_state_words;
pub mod of_top_node;
pub mod of_tree_model;

ghost use Rattle.std.specs.Prelude.{◌≡◌, ◌<◌, ◌≤◌, Some, true, IfOk, slice_index_or};
ghost use Rattle.inspector.specs.DdmTypes.ItemTable.{item_count};
ghost use Rattle.inspector.specs.TreeModel.Turns.Found.{found_copy, states_of};
ghost use Rattle.inspector.specs.TreeModel.Turns.Machine.{no_traffic};
ghost use Rattle.inspector.specs.TreeModel.Turns.Tree.{leaf_of_number, bus_of_number};
ghost use Rattle.inspector.specs.DdmTree.Machine.{is_part};
ghost use Rattle.inspector.specs.DdmTree.Reads.{state_of};

pub use crate::of_ddm_tree::Found;
use crate::of_ddm_tree::{Machine, Subtree};
use crate::of_ddm_types::{BusNo, ItemId, LeafNo, LeafState, NoMemory, TxKind};
pub use crate::of_tree_model::{CopyPlace, Traffic};
pub use all_copies::copies;
use std::alloc::Global;

/// The current copy of an item, as the report shows it. Every item has one.
pub fn find<const WORDS: usize, C: Subtree<WORDS>>(
    machine: &Machine<WORDS, C>,
    item: ItemId,
) -> Found<WORDS>
    requires { item < item_count machine.now.machine.items }
    ensures { Some result ≡ found_copy item machine.now.machine }
{
    machine.found(item)
}

/// The state of a leaf's entry of an item.
#[inline(always)]
pub fn state<const WORDS: usize, C: Subtree<WORDS>>(
    machine: &Machine<WORDS, C>,
    item: ItemId,
    leaf: LeafNo,
) -> Option<LeafState>
    requires { is_part (leaf_of_number leaf) machine.now.machine ≡ true }
    ensures { Some result ≡ state_of leaf item machine.now.machine }
{
    machine.leaf_state(leaf, item)
}

/// The state of each leaf's entry of an item, by the leaf's number.
pub fn states<const WORDS: usize, C: Subtree<WORDS>>(
    alloc: Global,
    machine: &Machine<WORDS, C>,
    item: ItemId,
) -> Result<Vec<Option<LeafState>>, NoMemory>
    ensures { IfOk result (λ states. states.items ≡ states_of item machine.now.machine) }
{
    let mut states = Vec::new(alloc);
    for leaf in 0..machine.counts().leaves {
        states.push(state(machine, item, LeafNo(leaf)))?;
    }
    Ok(states)
}

/// How many transactions of each kind a bus has granted.
pub fn traffic<const WORDS: usize, C: Subtree<WORDS>>(
    machine: &Machine<WORDS, C>,
    bus: BusNo,
) -> Traffic
    requires { is_part (bus_of_number bus) machine.now.machine ≡ true }
    ensures { result ≡ slice_index_or machine.now.machine.traffic bus no_traffic }
{
    Traffic {
        reads: machine.granted(bus, TxKind::ReadTx),
        copies: machine.granted(bus, TxKind::DataTx),
        erases: machine.granted(bus, TxKind::EraseTx),
        exclusives: machine.granted(bus, TxKind::ExclusiveTx),
        outs: machine.granted(bus, TxKind::OutTx),
        injects: machine.granted(bus, TxKind::InjectTx),
    }
}
