//! A cluster as a part of the tree.

use crate::cluster::Cluster;
use crate::of_bus_judging::ChildFace;
use crate::of_ddm_types::{
    BusNo, ChildNo, Hold, ItemId, LeafNo, LeafState, NoMemory, Stamp, TurnAnswer, Words,
};
use crate::of_item_states::DownEntry;
use crate::of_rv_hart::Hart;
use crate::of_state_reading::StateRefusal;
use crate::of_tree_model::{BusTurn, DirLengths, LeafLengths, LeafSpot, TreeChild};
use ddm_tree::{Found, Idle, Named, Quiet, Section, Subtree, TurnCall};
use std::alloc::Global;

impl<const WAYS: usize, const WORDS: usize> Subtree<WORDS> for Cluster<WAYS, WORDS> {
    fn label(&self) -> TreeChild {
        self.dir.label()
    }

    fn turn(
        &mut self,
        call: &TurnCall<'_>,
        rest: &[ChildNo],
        present: &Stamp,
        answer: &mut TurnAnswer,
    ) {
        self.dir.turn(call, rest, present, answer);
    }

    fn grants_below(&self, bus: BusNo, path: &[ChildNo], turn: BusTurn) -> bool {
        self.dir.grants_below(bus, path, turn)
    }

    fn learn_below(&self, known: &mut [Quiet], path: &[ChildNo], answer: &TurnAnswer) {
        self.dir.learn_below(known, path, answer);
    }

    #[inline(always)]
    fn learn_down(&self, known: &mut [Quiet]) {
        self.dir.learn_down(known);
    }

    fn rest_below(&self, path: &[ChildNo]) -> Option<Idle> {
        self.dir.rest_below(path)
    }

    fn leaf_below(&self, path: &[ChildNo], place: usize) -> Option<LeafNo> {
        self.dir.leaf_below(path, place)
    }

    fn path_up(&self, alloc: Global, name: &Named) -> Result<Option<Vec<ChildNo>>, NoMemory> {
        self.dir.path_up(alloc, name)
    }

    fn hart_below(&self, leaf: LeafNo, path: &[ChildNo]) -> &Hart {
        self.dir.hart_below(leaf, path)
    }

    fn stamp_below(&self, leaf: LeafNo, path: &[ChildNo], present: Stamp) -> Stamp {
        self.dir.stamp_below(leaf, path, present)
    }

    fn entry_below(
        &self,
        leaf: LeafNo,
        path: &[ChildNo],
        item: ItemId,
    ) -> Option<(LeafState, Words<WORDS>, LeafSpot)> {
        self.dir.entry_below(leaf, path, item)
    }

    #[inline(always)]
    fn state_below(&self, leaf: LeafNo, path: &[ChildNo], item: ItemId) -> Option<LeafState> {
        self.dir.state_below(leaf, path, item)
    }

    fn states_below(&self, item: ItemId, states: &mut [Option<LeafState>], at: usize) -> usize {
        self.dir.states_below(item, states, at)
    }

    fn unheld_states_below(
        &self,
        item: ItemId,
        states: &mut [Option<LeafState>],
        at: usize,
    ) -> usize {
        self.dir.unheld_states_below(item, states, at)
    }

    fn children_below(&self, bus: BusNo, path: &[ChildNo]) -> u32 {
        self.dir.children_below(bus, path)
    }

    fn child_below(&self, bus: BusNo, path: &[ChildNo], child: ChildNo) -> TreeChild {
        self.dir.child_below(bus, path, child)
    }

    fn hold_below(&self, bus: BusNo, path: &[ChildNo], child: ChildNo, item: ItemId) -> Hold {
        self.dir.hold_below(bus, path, child, item)
    }

    fn leaving_count(&self) -> u32 {
        self.dir.leaving_count()
    }

    fn leaving_count_below(&self, bus: BusNo, path: &[ChildNo], child: ChildNo) -> u32 {
        self.dir.leaving_count_below(bus, path, child)
    }

    fn down_below(&self, bus: BusNo, path: &[ChildNo], place: u32) -> Option<DownEntry<WORDS>> {
        self.dir.down_below(bus, path, place)
    }

    fn down_len_below(&self, bus: BusNo, path: &[ChildNo]) -> u32 {
        self.dir.down_len_below(bus, path)
    }

    fn lengths_below(&self, bus: BusNo, path: &[ChildNo]) -> DirLengths {
        self.dir.lengths_below(bus, path)
    }

    fn leaf_lengths_below(&self, leaf: LeafNo, path: &[ChildNo]) -> LeafLengths {
        self.dir.leaf_lengths_below(leaf, path)
    }

    fn stamps_fit_below(&self, bus: BusNo, path: &[ChildNo], present: &Stamp) -> bool {
        self.dir.stamps_fit_below(bus, path, present)
    }

    fn parked_below(
        &self,
        bus: BusNo,
        path: &[ChildNo],
        item: ItemId,
    ) -> Option<(u32, Words<WORDS>)> {
        self.dir.parked_below(bus, path, item)
    }

    fn face(&self, item: ItemId) -> ChildFace {
        self.dir.face(item)
    }

    fn broken_below(&self, bus: BusNo, path: &[ChildNo], items: u32) -> Option<ItemId> {
        self.dir.broken_below(bus, path, items)
    }

    fn ways_below(&self) -> u32 {
        self.dir.ways_below()
    }

    fn write_hart_below(
        &self,
        leaf: LeafNo,
        path: &[ChildNo],
        out: &mut Vec<u32>,
    ) -> Result<(), NoMemory> {
        self.dir.write_hart_below(leaf, path, out)
    }

    fn write_leaf_below(
        &self,
        leaf: LeafNo,
        path: &[ChildNo],
        out: &mut Vec<u32>,
    ) -> Result<(), NoMemory> {
        self.dir.write_leaf_below(leaf, path, out)
    }

    fn write_part_below(
        &self,
        bus: BusNo,
        path: &[ChildNo],
        out: &mut Vec<u32>,
    ) -> Result<(), NoMemory> {
        self.dir.write_part_below(bus, path, out)
    }

    fn read_below(
        &mut self,
        section: Section,
        path: &[ChildNo],
        words: &[u32],
        from: u32,
    ) -> Result<u32, StateRefusal> {
        self.dir.read_below(section, path, words, from)
    }

    fn mark_held(&self, held: &mut [bool]) {
        self.dir.mark_held(held);
    }

    fn found_below(&self, item: ItemId) -> Option<Found<WORDS>> {
        self.dir.found_below(item)
    }
}
