//! A directory over its children, as a child of its bus and as a part of the tree.

ghost use Rattle.std.specs.Prelude.{◌≡◌, ◌<◌, None, true, drop, map};
ghost use Rattle.ddm_tree.specs.DdmTypes.declared.answers.TxKind.TheVariants.{DataTx, InjectTx};
ghost use Rattle.ddm_tree.specs.TreeModel.State.Values.{dir_node, nodes};
ghost use Rattle.ddm_tree.specs.TreeModel.State.Child.{child_full_for, child_take_data, child_take_inject, reader_has_place};
ghost use Rattle.ddm_tree.specs.ItemStates.Parts.{node_items};

use crate::below::{
    child_under, children_under, down_len_under, down_under, entry_under, grants_under, hart_under,
    hold_under, leaf_lengths_under, leaving_count_under, lengths_under, parked_under, stamp_under,
    state_under, states_under, turn_under,
};
use crate::copying::{CopyFrom, copy_children};
use crate::found::{Found, found_among, own_copy};
use crate::idle::{Idle, leaf_under, rest_under};
use crate::judging::broken_under;
use crate::marking::mark_exclusive;
use crate::named::Named;
use crate::of_bus_judging::ChildFace;
use crate::of_ddm_types::{
    BusNo, ChildNo, Hold, ItemId, LeafNo, LeafState, NoMemory, PendingWhy, QueueName, Stamp,
    TurnAnswer, TxKind, Words,
};
use crate::of_directory::DirState;
use crate::of_item_states::{Agent, DownEntry, Parent};
use crate::of_rv_hart::Hart;
use crate::of_state_reading::StateRefusal;
use crate::of_tree_model::{BusTurn, DirLengths, LeafLengths, LeafSpot, TreeChild};
use crate::paths::path_up_under;
use crate::quiet::{Quiet, learn_down_of, learn_under};
use crate::read_back::read_under;
use crate::section::Section;
use crate::stamps::stamps_fit_under;
use crate::subtree::Subtree;
use crate::turn_call::TurnCall;
use crate::unheld::{is_without, unheld_states_under};
use crate::writing::{ways_among, write_hart_under, write_leaf_under, write_part_under};
use std::alloc::Global;

/// A directory over its children.
#[derive(Drop)]
pub struct Dir<const WORDS: usize, C: Subtree<WORDS>> {
    state: DirState<WORDS>,
    children: Vec<C>,
}

impl<const WORDS: usize, C: Subtree<WORDS>> Dir<WORDS, C> {
    /// The directory over these children.
    pub fn new(state: DirState<WORDS>, children: Vec<C>) -> Self
        ensures { dir_node result.state (nodes (map C.value result.children.items))
            ≡ dir_node state.entry (nodes (map C.value children.items)) }
    {
        Dir { state, children }
    }
}

impl<const WORDS: usize, C: Subtree<WORDS>> Agent<WORDS> for Dir<WORDS, C> {
    ghost value = { λ s. dir_node s.state (nodes (map C.value s.children.items)) };

    fn hold(&self, item: ItemId) -> Hold {
        self.state.up_hold(item)
    }

    fn waits(&self, item: ItemId) -> bool {
        self.state.up_waits(item)
    }

    fn room(&self, item: ItemId) -> bool {
        self.state.up_room(item)
    }

    fn reader_has_place(&self, item: ItemId) -> bool {
        self.state.up_reader_has_place(item)
    }

    fn full_for(&self, kind: TxKind, item: ItemId) -> Option<QueueName> {
        self.state.up_full_for(kind, item)
    }

    fn first_request(&self) -> Option<(TxKind, ItemId)> {
        self.state.up_first_request()
    }

    fn first_reply(&self) -> Option<(ItemId, Words<WORDS>)> {
        self.state.up_first_reply()
    }

    fn leaving(&self, choice: u8) -> Option<ItemId> {
        self.state.up_leaving(choice)
    }

    fn pending_below(&self, item: ItemId) -> Option<(BusNo, PendingWhy)> {
        self.state.up_pending_below(item)
    }

    fn take_request(&mut self) {
        self.state.up_take_request();
    }

    fn take_reply(&mut self) {
        self.state.up_take_reply();
    }

    fn lose(&mut self, item: ItemId, stamp: Stamp) {
        self.state.up_lose(item, stamp);
    }

    fn take_data(&mut self, item: ItemId, words: Words<WORDS>, stamp: Stamp)
        requires in_range { item < node_items (dir_node self.old.state (nodes (map C.value self.old.children.items))) }
        requires room { child_full_for DataTx item (dir_node self.old.state (nodes (map C.value self.old.children.items))) ≡ None }
        ensures { dir_node self.new.state (nodes (map C.value self.new.children.items))
            ≡ child_take_data item words.entry stamp
            (dir_node self.old.state (nodes (map C.value self.old.children.items))) }
    {
        self.state.up_take_data(item, words, stamp);
    }

    fn take_exclusive(&mut self, item: ItemId, stamp: Stamp) {
        self.state.up_take_exclusive(item, stamp);
    }

    fn answer(&mut self, item: ItemId, stamp: Stamp) {
        self.state.up_answer(item, stamp);
    }

    fn take_inject(&mut self, item: ItemId, words: Words<WORDS>, stamp: Stamp)
        requires in_range { item < node_items (dir_node self.old.state (nodes (map C.value self.old.children.items))) }
        requires room { child_full_for InjectTx item (dir_node self.old.state (nodes (map C.value self.old.children.items))) ≡ None }
        requires place { reader_has_place item (dir_node self.old.state (nodes (map C.value self.old.children.items))) ≡ true }
        ensures { dir_node self.new.state (nodes (map C.value self.new.children.items))
            ≡ child_take_inject item words.entry stamp
            (dir_node self.old.state (nodes (map C.value self.old.children.items))) }
    {
        self.state.up_take_inject(item, words, stamp);
    }

    fn give_up(&mut self, item: ItemId) -> Words<WORDS> {
        self.state.up_give_up(item)
    }
}

impl<const WORDS: usize, C: Subtree<WORDS>> Subtree<WORDS> for Dir<WORDS, C> {
    fn label(&self) -> TreeChild {
        TreeChild::BusChild(self.state.bus())
    }

    fn turn(
        &mut self,
        call: &TurnCall<'_>,
        rest: &[ChildNo],
        present: &Stamp,
        answer: &mut TurnAnswer,
    ) {
        turn_under(
            &mut self.state,
            &mut self.children,
            call,
            rest,
            present,
            answer,
        );
    }

    fn grants_below(&self, bus: BusNo, path: &[ChildNo], turn: BusTurn) -> bool {
        grants_under(&self.state, &self.children, bus, path, turn)
    }

    #[inline(always)]
    fn learn_below(&self, known: &mut [Quiet], path: &[ChildNo], answer: &TurnAnswer) {
        learn_under(known, &self.state, &self.children, path, answer);
    }

    #[inline(always)]
    fn learn_down(&self, known: &mut [Quiet]) {
        learn_down_of(known, &self.state);
    }

    fn rest_below(&self, path: &[ChildNo]) -> Option<Idle> {
        rest_under(&self.children, path)
    }

    fn leaf_below(&self, path: &[ChildNo], place: usize) -> Option<LeafNo> {
        leaf_under(&self.children, path, place)
    }

    fn path_up(&self, alloc: Global, name: &Named) -> Result<Option<Vec<ChildNo>>, NoMemory> {
        path_up_under(alloc, &self.state, &self.children, name)
    }

    fn hart_below(&self, leaf: LeafNo, path: &[ChildNo]) -> &Hart {
        hart_under(&self.state, &self.children, leaf, path)
    }

    fn stamp_below(&self, leaf: LeafNo, path: &[ChildNo], _present: Stamp) -> Stamp {
        stamp_under(&self.state, &self.children, leaf, path)
    }

    fn entry_below(
        &self,
        leaf: LeafNo,
        path: &[ChildNo],
        item: ItemId,
    ) -> Option<(LeafState, Words<WORDS>, LeafSpot)> {
        entry_under(&self.state, &self.children, leaf, path, item)
    }

    #[inline(always)]
    fn state_below(&self, leaf: LeafNo, path: &[ChildNo], item: ItemId) -> Option<LeafState> {
        state_under(&self.state, &self.children, leaf, path, item)
    }

    fn states_below(&self, item: ItemId, states: &mut [Option<LeafState>], at: usize) -> usize {
        if is_without(&self.state, item) {
            unheld_states_under(&self.children, item, states, at)
        } else {
            states_under(&self.children, item, states, at)
        }
    }

    /// What it doesn't hold may be on its way down to its children.
    fn unheld_states_below(
        &self,
        item: ItemId,
        states: &mut [Option<LeafState>],
        at: usize,
    ) -> usize {
        self.states_below(item, states, at)
    }

    fn children_below(&self, bus: BusNo, path: &[ChildNo]) -> u32 {
        children_under(&self.state, &self.children, bus, path)
    }

    fn child_below(&self, bus: BusNo, path: &[ChildNo], child: ChildNo) -> TreeChild {
        child_under(&self.state, &self.children, bus, path, child)
    }

    fn hold_below(&self, bus: BusNo, path: &[ChildNo], child: ChildNo, item: ItemId) -> Hold {
        hold_under(&self.state, &self.children, bus, path, child, item)
    }

    fn leaving_count(&self) -> u32 {
        self.state.parked_len()
    }

    fn leaving_count_below(&self, bus: BusNo, path: &[ChildNo], child: ChildNo) -> u32 {
        leaving_count_under(&self.state, &self.children, bus, path, child)
    }

    fn down_below(&self, bus: BusNo, path: &[ChildNo], place: u32) -> Option<DownEntry<WORDS>> {
        if path.is_empty() {
            self.state.down_get(place).copied()
        } else {
            down_under(&self.state, &self.children, bus, path, place)
        }
    }

    fn down_len_below(&self, bus: BusNo, path: &[ChildNo]) -> u32 {
        if path.is_empty() {
            self.state.down_len()
        } else {
            down_len_under(&self.state, &self.children, bus, path)
        }
    }

    fn lengths_below(&self, bus: BusNo, path: &[ChildNo]) -> DirLengths {
        if path.is_empty() {
            self.state.lengths()
        } else {
            lengths_under(&self.state, &self.children, bus, path)
        }
    }

    fn leaf_lengths_below(&self, leaf: LeafNo, path: &[ChildNo]) -> LeafLengths {
        leaf_lengths_under(&self.state, &self.children, leaf, path)
    }

    fn stamps_fit_below(&self, bus: BusNo, path: &[ChildNo], present: &Stamp) -> bool {
        if path.is_empty() {
            self.state.stamps_fit(present)
        } else {
            stamps_fit_under(&self.state, &self.children, bus, path)
        }
    }

    fn parked_below(
        &self,
        bus: BusNo,
        path: &[ChildNo],
        item: ItemId,
    ) -> Option<(u32, Words<WORDS>)> {
        if path.is_empty() {
            let place = self.state.parked_at(item)?;
            let words = self.state.parked(item)?;
            Some((place, words))
        } else {
            parked_under(&self.state, &self.children, bus, path, item)
        }
    }

    fn face(&self, item: ItemId) -> ChildFace {
        self.state.face(item)
    }

    fn broken_below(&self, bus: BusNo, path: &[ChildNo], items: u32) -> Option<ItemId> {
        broken_under(&self.state, &self.children, bus, path, items)
    }

    fn ways_below(&self) -> u32 {
        ways_among(&self.children)
    }

    fn write_hart_below(
        &self,
        leaf: LeafNo,
        path: &[ChildNo],
        out: &mut Vec<u32>,
    ) -> Result<(), NoMemory> {
        write_hart_under(&self.state, &self.children, leaf, path, out)
    }

    fn write_leaf_below(
        &self,
        leaf: LeafNo,
        path: &[ChildNo],
        out: &mut Vec<u32>,
    ) -> Result<(), NoMemory> {
        write_leaf_under(&self.state, &self.children, leaf, path, out)
    }

    fn write_part_below(
        &self,
        bus: BusNo,
        path: &[ChildNo],
        out: &mut Vec<u32>,
    ) -> Result<(), NoMemory> {
        if path.is_empty() {
            self.state.write_part(out)
        } else {
            write_part_under(&self.state, &self.children, bus, path, out)
        }
    }

    fn read_below(
        &mut self,
        section: Section,
        path: &[ChildNo],
        words: &[u32],
        from: u32,
    ) -> Result<u32, StateRefusal> {
        if path.is_empty() {
            self.state
                .read_part(words, from, self.children.len() as u32)
        } else {
            read_under(&self.state, &mut self.children, section, path, words, from)
        }
    }

    fn mark_held(&self, held: &mut [bool]) {
        mark_exclusive(&self.state, held);
    }

    fn found_below(&self, item: ItemId) -> Option<Found<WORDS>> {
        match own_copy(&self.state, item) {
            Some(found) => Some(found),
            None => found_among(&self.children, item),
        }
    }
}

impl<const WORDS: usize, C: CopyFrom<WORDS>> CopyFrom<WORDS> for Dir<WORDS, C> {
    fn copy_from(&mut self, other: &Self) {
        self.state.copy_from(&other.state);
        copy_children(&mut self.children, &other.children);
    }
}
