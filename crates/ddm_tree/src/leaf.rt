//! A leaf as a part of the tree.

use crate::found::{Found, place_at};
use crate::idle::{Idle, rests_by};
use crate::named::Named;
use crate::of_bus_judging::ChildFace;
use crate::of_ddm_types::{
    BusNo, ChildNo, Hold, ItemId, LeafNo, LeafState, NoMemory, Stamp, TurnAnswer, Words,
};
use crate::of_item_states::DownEntry;
use crate::of_rv_hart::Hart;
use crate::of_state_reading::StateRefusal;
use crate::of_tree_model::{BusTurn, DirLengths, LeafLengths, LeafSpot, TreeChild};
use crate::quiet::Quiet;
use crate::section::Section;
use crate::subtree::Subtree;
use crate::turn_call::TurnCall;
use crate::turns::{key_on, victim};
use crate::unheld::unheld_state;
use leaf_protocol::Leaf;
use std::alloc::Global;

impl<const WAYS: usize, const WORDS: usize> Subtree<WORDS> for Leaf<WAYS, WORDS> {
    fn label(&self) -> TreeChild {
        TreeChild::LeafChild(self.number())
    }

    #[inline(always)]
    fn turn(
        &mut self,
        call: &TurnCall<'_>,
        _rest: &[ChildNo],
        present: &Stamp,
        answer: &mut TurnAnswer,
    ) {
        let now = key_on(*present, call.path, self.hart().done());
        self.hart_turn_into(call.code, call.items, now, victim(call.turn), answer);
    }

    fn grants_below(&self, _bus: BusNo, _path: &[ChildNo], _turn: BusTurn) -> bool {
        false
    }

    #[inline(always)]
    fn learn_below(&self, _known: &mut [Quiet], _path: &[ChildNo], _answer: &TurnAnswer) {}

    #[inline(always)]
    fn learn_down(&self, _known: &mut [Quiet]) {}

    #[inline(always)]
    fn rest_below(&self, path: &[ChildNo]) -> Option<Idle> {
        if !path.is_empty() {
            return None;
        }
        rests_by(self.hart().halted(), self.waiting())
    }

    #[inline(always)]
    fn leaf_below(&self, _path: &[ChildNo], _place: usize) -> Option<LeafNo> {
        None
    }

    fn path_up(&self, alloc: Global, name: &Named) -> Result<Option<Vec<ChildNo>>, NoMemory> {
        match name {
            Named::Leaf(leaf) if *leaf == self.number() => Ok(Some(Vec::new(alloc))),
            _ => Ok(None),
        }
    }

    fn hart_below(&self, _leaf: LeafNo, _path: &[ChildNo]) -> &Hart {
        self.hart()
    }

    fn stamp_below(&self, _leaf: LeafNo, _path: &[ChildNo], present: Stamp) -> Stamp {
        present
    }

    fn entry_below(
        &self,
        _leaf: LeafNo,
        _path: &[ChildNo],
        item: ItemId,
    ) -> Option<(LeafState, Words<WORDS>, LeafSpot)> {
        self.entry(item)
    }

    #[inline(always)]
    fn state_below(&self, _leaf: LeafNo, _path: &[ChildNo], item: ItemId) -> Option<LeafState> {
        self.state(item)
    }

    #[inline(always)]
    fn states_below(&self, item: ItemId, states: &mut [Option<LeafState>], at: usize) -> usize {
        states[at] = self.state(item);
        at + 1
    }

    #[inline(always)]
    fn unheld_states_below(
        &self,
        item: ItemId,
        states: &mut [Option<LeafState>],
        at: usize,
    ) -> usize {
        states[at] = unheld_state(self, item);
        at + 1
    }

    fn children_below(&self, _bus: BusNo, _path: &[ChildNo]) -> u32 {
        0
    }

    fn child_below(&self, _bus: BusNo, _path: &[ChildNo], _child: ChildNo) -> TreeChild {
        TreeChild::BusChild(BusNo(0))
    }

    fn hold_below(&self, _bus: BusNo, _path: &[ChildNo], _child: ChildNo, _item: ItemId) -> Hold {
        Hold::Invalid
    }

    #[inline(always)]
    fn leaving_count(&self) -> u32 {
        self.leaving_count()
    }

    fn leaving_count_below(&self, _bus: BusNo, _path: &[ChildNo], _child: ChildNo) -> u32 {
        0
    }

    fn down_below(&self, _bus: BusNo, _path: &[ChildNo], _place: u32) -> Option<DownEntry<WORDS>> {
        None
    }

    fn down_len_below(&self, _bus: BusNo, _path: &[ChildNo]) -> u32 {
        0
    }

    fn lengths_below(&self, _bus: BusNo, _path: &[ChildNo]) -> DirLengths {
        DirLengths {
            down: 0,
            requests: 0,
            replies: 0,
            parking: 0,
        }
    }

    #[inline(always)]
    fn leaf_lengths_below(&self, _leaf: LeafNo, _path: &[ChildNo]) -> LeafLengths {
        self.lengths()
    }

    fn stamps_fit_below(&self, _bus: BusNo, _path: &[ChildNo], _present: &Stamp) -> bool {
        true
    }

    fn parked_below(
        &self,
        _bus: BusNo,
        _path: &[ChildNo],
        _item: ItemId,
    ) -> Option<(u32, Words<WORDS>)> {
        None
    }

    fn face(&self, item: ItemId) -> ChildFace {
        self.face(item)
    }

    fn broken_below(&self, _bus: BusNo, _path: &[ChildNo], _items: u32) -> Option<ItemId> {
        None
    }

    fn ways_below(&self) -> u32 {
        self.ways()
    }

    fn write_hart_below(
        &self,
        _leaf: LeafNo,
        _path: &[ChildNo],
        out: &mut Vec<u32>,
    ) -> Result<(), NoMemory> {
        self.write_hart(out)
    }

    fn write_leaf_below(
        &self,
        _leaf: LeafNo,
        _path: &[ChildNo],
        out: &mut Vec<u32>,
    ) -> Result<(), NoMemory> {
        self.write_part(out)
    }

    fn write_part_below(
        &self,
        _bus: BusNo,
        _path: &[ChildNo],
        _out: &mut Vec<u32>,
    ) -> Result<(), NoMemory> {
        Ok(())
    }

    fn read_below(
        &mut self,
        section: Section,
        _path: &[ChildNo],
        words: &[u32],
        from: u32,
    ) -> Result<u32, StateRefusal> {
        match section {
            Section::Hart(_) => self.read_hart(words, from),
            Section::Leaf(_) => self.read_part(words, from),
            Section::Bus(_) => Ok(from),
        }
    }

    fn mark_held(&self, held: &mut [bool]) {
        self.mark_held(held);
    }

    fn found_below(&self, item: ItemId) -> Option<Found<WORDS>> {
        let (_, words, spot) = self.entry(item)?;
        let at = place_at(self.number(), spot);
        Some(Found { at, words })
    }
}
