//! What can be read of a machine.

ghost use Rattle.std.specs.Prelude.{◌≡◌, ◌<◌, ◌≤◌, Some, is_some, true, length, map, option_copied, take, vec_items};
ghost use Rattle.ddm_tree.specs.DdmTypes.ItemTable.{item_count};
ghost use Rattle.ddm_tree.specs.TreeModel.State.Shape.{IsShaped, tree_counts};
ghost use Rattle.ddm_tree.specs.TreeModel.State.Values.{root_of};
ghost use Rattle.ddm_tree.specs.TreeModel.Turns.Found.{found_copy, states_of};
ghost use Rattle.ddm_tree.specs.TreeModel.Turns.Machine.{child_count, child_hold_of, child_of, down_entry_of};
ghost use Rattle.ddm_tree.specs.TreeModel.Turns.Machine.{granted_of, grants_of, is_child_of, leaf_lengths_at};
ghost use Rattle.ddm_tree.specs.TreeModel.Turns.Machine.{lengths_at, named_by, names_part, now_of, turn_of};
ghost use Rattle.split_bus.specs.Outcomes.{is_granted};
ghost use Rattle.ddm_tree.specs.TreeModel.Turns.Tree.{leaf_of_number, bus_of_number};
ghost use Rattle.ddm_tree.specs.Machine.{is_part};
ghost use Rattle.ddm_tree.specs.Rules.{KeepsRules};
ghost use Rattle.ddm_tree.specs.Ready.{Leads};
ghost use Rattle.ddm_tree.specs.Reads.{counted_hart_of, down_len_of, entry_at, is_down_request_or_reply};
ghost use Rattle.ddm_tree.specs.Reads.{leaving_count_of, parked_at, state_of};

use crate::below::{
    child_under, children_under, down_len_under, down_under, entry_under, grants_under, hart_under,
    hold_under, leaf_lengths_under, leaving_count_under, lengths_under, parked_under, stamp_under,
    state_under, states_under,
};
use crate::found::{Found, found_among};
use crate::machine::Machine;
use crate::of_ddm_types::{
    BusNo, ChildNo, HartNo, Hold, ItemId, Items, Key, LeafNo, LeafState, TreeCounts, Turn, TxKind,
    Words,
};
use crate::of_item_states::{DownEntry, Parent};
use crate::of_rv_hart::Hart;
use crate::of_tree_model::{DirLengths, LeafLengths, LeafSpot, Traffic, TreeChild};
use crate::subtree::Subtree;
use crate::turns::{key_on, on_bus};
use operation_list::Operations;

impl<const WORDS: usize, C: Subtree<WORDS>> Machine<WORDS, C> {
    /// The key that an instruction completing now at this leaf would have.
    pub fn now(&self, leaf: LeafNo) -> Key
        requires { is_part (leaf_of_number leaf) self.now.machine ≡ true }
        ensures { Some result ≡ now_of leaf self.now.machine }
    {
        let path = self.leaf_path(leaf);
        let present = stamp_under(&self.top, &self.children, leaf, path);
        let hart = hart_under(&self.top, &self.children, leaf, path);
        key_on(present, path, hart.done())
    }

    /// The operations, in order of completion.
    pub fn ops(&self) -> &Operations
        ensures { result.now.items ≡ self.now.machine.ops }
    {
        &self.ops
    }

    pub fn hart(&self, hart: HartNo) -> &Hart
        requires { is_part (leaf_of_number hart) self.now.machine ≡ true }
        ensures { Some result.now ≡ counted_hart_of hart self.now.machine }
    {
        let leaf = LeafNo(hart.0);
        hart_under(&self.top, &self.children, leaf, self.leaf_path(leaf))
    }

    /// How many leaves, buses and levels of buses the tree has.
    pub fn counts(&self) -> TreeCounts
        ensures counts { result ≡ tree_counts self.now.machine }
        ensures shape { IsShaped self.now.machine }
        ensures rules { KeepsRules self.now.machine }
    {
        self.counts
    }

    pub fn items(&self) -> &Items
        ensures { result.now ≡ self.now.machine.items }
    {
        &self.items
    }

    /// How many children a bus has.
    pub fn children(&self, bus: BusNo) -> u32
        requires { is_part (bus_of_number bus) self.now.machine ≡ true }
        ensures { Some result ≡ child_count bus self.now.machine }
    {
        let path = self.bus_path(bus);
        children_under(&self.top, &self.children, bus, path)
    }

    /// A child of a bus.
    pub fn child(&self, bus: BusNo, child: ChildNo) -> TreeChild
        requires { is_child_of child (child_count bus self.now.machine) ≡ true }
        ensures { Some result ≡ child_of bus child self.now.machine }
    {
        let path = self.bus_path(bus);
        child_under(&self.top, &self.children, bus, path, child)
    }

    /// What a child of a bus holds of an item.
    pub fn child_hold(&self, bus: BusNo, child: ChildNo, item: ItemId) -> Hold
        requires child { is_child_of child (child_count bus self.now.machine) ≡ true }
        requires item { item < item_count self.now.machine.items }
        ensures { Some result ≡ child_hold_of bus child item self.now.machine }
    {
        let path = self.bus_path(bus);
        hold_under(&self.top, &self.children, bus, path, child, item)
    }

    /// How many copies of a child of a bus may leave.
    pub fn leaving_count(&self, bus: BusNo, child: ChildNo) -> u32
        requires { is_child_of child (child_count bus self.now.machine) ≡ true }
        ensures { Some result ≡ leaving_count_of bus child self.now.machine }
    {
        let path = self.bus_path(bus);
        leaving_count_under(&self.top, &self.children, bus, path, child)
    }

    /// The entry that a leaf has of an item, with its words, and where it stands.
    pub fn leaf_entry(
        &self,
        leaf: LeafNo,
        item: ItemId,
    ) -> Option<(LeafState, Words<WORDS>, LeafSpot)>
        requires leaf { is_part (leaf_of_number leaf) self.now.machine ≡ true }
        requires item { item < item_count self.now.machine.items }
        ensures { Some result ≡ entry_at leaf item self.now.machine }
    {
        let path = self.leaf_path(leaf);
        entry_under(&self.top, &self.children, leaf, path, item)
    }

    /// The state of that entry.
    #[inline(always)]
    pub fn leaf_state(&self, leaf: LeafNo, item: ItemId) -> Option<LeafState>
        requires { is_part (leaf_of_number leaf) self.now.machine ≡ true }
        ensures { Some result ≡ state_of leaf item self.now.machine }
    {
        let path = self.leaf_path(leaf);
        state_under(&self.top, &self.children, leaf, path, item)
    }

    /// Puts the states of an item's entries at all leaves, in order, into the first places. No leaf has one of an item that isn't in the
    /// table.
    pub fn states(&self, item: ItemId, states: &mut [Option<LeafState>])
        requires { (tree_counts self.now.machine).leaves ≤ length states.old }
        ensures { take (tree_counts self.now.machine).leaves states.new ≡ states_of item self.now.machine }
    {
        if item.0 < self.items.len() {
            states_under(&self.children, item, states, 0);
        } else {
            states[..self.counts.leaves as usize].fill(None);
        }
    }

    /// An entry of the down list over a bus, by its place counted from 0.
    pub fn down_get(&self, bus: BusNo, place: u32) -> Option<DownEntry<WORDS>>
        requires { is_part (bus_of_number bus) self.now.machine ≡ true }
        ensures { Some result ≡ down_entry_of bus place self.now.machine }
    {
        let path = self.bus_path(bus);
        if path.is_empty() {
            self.top.down_get(place).copied()
        } else {
            down_under(&self.top, &self.children, bus, path, place)
        }
    }

    /// How many entries the down list over a bus has.
    pub fn down_len(&self, bus: BusNo) -> u32
        requires { is_part (bus_of_number bus) self.now.machine ≡ true }
        ensures { Some result ≡ down_len_of bus self.now.machine }
    {
        let path = self.bus_path(bus);
        if path.is_empty() {
            self.top.down_len()
        } else {
            down_len_under(&self.top, &self.children, bus, path)
        }
    }

    /// How long the lists of the directory over a bus are; over bus 0 it is the top.
    pub fn list_lengths(&self, bus: BusNo) -> DirLengths
        requires { is_part (bus_of_number bus) self.now.machine ≡ true }
        ensures { Some result ≡ lengths_at bus self.now.machine }
    {
        let path = self.bus_path(bus);
        if path.is_empty() {
            self.top.lengths()
        } else {
            lengths_under(&self.top, &self.children, bus, path)
        }
    }

    /// How long the lists of a leaf are.
    pub fn leaf_lengths(&self, leaf: LeafNo) -> LeafLengths
        requires { is_part (leaf_of_number leaf) self.now.machine ≡ true }
        ensures { Some result ≡ leaf_lengths_at leaf self.now.machine }
    {
        let path = self.leaf_path(leaf);
        leaf_lengths_under(&self.top, &self.children, leaf, path)
    }

    /// The copy of an item that is parked at a bus: its place, counted from 0, and its words.
    pub fn parked(&self, bus: BusNo, item: ItemId) -> Option<(u32, Words<WORDS>)>
        requires bus { is_part (bus_of_number bus) self.now.machine ≡ true }
        requires item { item < item_count self.now.machine.items }
        ensures { Some result ≡ parked_at bus item self.now.machine }
    {
        let path = self.bus_path(bus);
        if path.is_empty() {
            let place = self.top.parked_at(item)?;
            let words = self.top.parked(item)?;
            Some((place, words))
        } else {
            parked_under(&self.top, &self.children, bus, path, item)
        }
    }

    /// Whether a Down, Request or Reply turn would be granted. It takes no memory.
    pub fn would_grant(&self, turn: Turn) -> bool
        requires kind { is_down_request_or_reply turn ≡ true }
        requires named { names_part turn self.now.machine ≡ true }
        ensures { result ≡ is_granted (turn_of turn self.now.machine).answer }
    {
        let bus = bus_of(&turn);
        let path = self.bus_path(bus);
        grants_under(&self.top, &self.children, bus, path, on_bus(&turn))
    }

    /// The path from the top to a leaf.
    pub(crate) fn leaf_path(&self, leaf: LeafNo) -> &[ChildNo]
        requires { is_part (leaf_of_number leaf) self.now.machine ≡ true }
        ensures { Leads (leaf_of_number leaf) result.now (root_of self.now.machine) }
    {
        &self.leaf_paths[leaf.0 as usize]
    }

    /// The path from the top to a bus.
    pub(crate) fn bus_path(&self, bus: BusNo) -> &[ChildNo]
        requires { is_part (bus_of_number bus) self.now.machine ≡ true }
        ensures { Leads (bus_of_number bus) result.now (root_of self.now.machine) }
    {
        &self.bus_paths[bus.0 as usize]
    }

    /// The found copy of an item. Under the rules of the buses there is one.
    pub fn found(&self, item: ItemId) -> Found<WORDS>
        requires { item < item_count self.now.machine.items }
        ensures { Some result ≡ found_copy item self.now.machine }
    {
        found_among(&self.children, item).unwrap()
    }

    /// For each bus how many transactions of each kind it has granted.
    pub fn traffic(&self) -> &[Traffic]
        ensures { result.now ≡ self.now.machine.traffic }
    {
        &self.traffic
    }

    /// How many transactions of a kind a bus has granted.
    pub fn granted(&self, bus: BusNo, kind: TxKind) -> u32
        requires { is_part (bus_of_number bus) self.now.machine ≡ true }
        ensures { result ≡ grants_of bus kind self.now.machine }
    {
        granted_of(&self.traffic[bus.0 as usize], kind)
    }
}

/// The count of this kind.
fn granted_of(traffic: &Traffic, kind: TxKind) -> u32
    ensures { result ≡ granted_of kind traffic.now }
{
    match kind {
        TxKind::ReadTx => traffic.reads,
        TxKind::DataTx => traffic.copies,
        TxKind::EraseTx => traffic.erases,
        TxKind::ExclusiveTx => traffic.exclusives,
        TxKind::InjectTx => traffic.injects,
        TxKind::OutTx => traffic.outs,
    }
}

/// The bus of a turn.
fn bus_of(turn: &Turn) -> BusNo
    requires { is_down_request_or_reply turn.now ≡ true }
    ensures { named_by turn.now ≡ bus_of_number result }
{
    match turn {
        Turn::Down { bus }
        | Turn::Request { bus, .. }
        | Turn::Reply { bus, .. }
        | Turn::Leave { bus, .. } => *bus,
        Turn::Hart { .. } => unreachable!(),
    }
}
