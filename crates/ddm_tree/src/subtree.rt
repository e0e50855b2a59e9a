//! What every part of the tree can do: the trait of leaves and directories.

ghost use Rattle.std.specs.Prelude.{◌≡◌, ℕ, [], ◌∷◌, ◌+◌, ◌*◌, ◌<◌, ◌≤◌, ◌^◌, ◌++◌, true, false, length, take, Some};
ghost use Rattle.std.specs.Prelude.{IfOk, IfSome, OnErr, OnOk, option_map, reverse, vec_items};
ghost use Rattle.ddm_tree.specs.DdmTypes.ItemTable.{item_count};
ghost use Rattle.ddm_tree.specs.TreeModel.declared.BusTurn.{BusTurn};
ghost use Rattle.ddm_tree.specs.TreeModel.Start.Nodes.{held_by, or_each};
ghost use Rattle.ddm_tree.specs.TreeModel.State.Child.{child_holds, child_label};
ghost use Rattle.ddm_tree.specs.TreeModel.State.Shape.{skeleton, widths_fit};
ghost use Rattle.ddm_tree.specs.TreeModel.Turns.Found.{found_of, place_found, words_found};
ghost use Rattle.ddm_tree.specs.TreeModel.Turns.Machine.{named_by, bus_turn_of};
ghost use Rattle.ddm_tree.specs.TreeModel.Turns.Tree.{leaf_of_number, bus_of_number};
ghost use Rattle.ddm_tree.specs.DdmTypes.declared.keys.Stamp.{Stamp};
ghost use Rattle.ddm_tree.specs.ItemStates.Parts.{node_items};
ghost use Rattle.ddm_tree.specs.DdmText.Adds.{Adds};
ghost use Rattle.ddm_tree.specs.StateWords.Begins.{Begins};
ghost use Rattle.ddm_tree.specs.StateWords.Parts.{hart_words, leaf_words};
ghost use Rattle.ddm_tree.specs.StateWords.Machine.{way_count_of};
ghost use Rattle.split_bus.specs.Outcomes.{goes_on_with};
ghost use Rattle.ddm_tree.specs.Path.{path_to, node_at, present_at, put_at, node_answer, node_turned};
ghost use Rattle.ddm_tree.specs.TreeRules.Bus.Faces.{child_face};
ghost use Rattle.ddm_tree.specs.Idle.{node_rests};
ghost use Rattle.ddm_tree.specs.Judging.{IsJudged, node_broken};
ghost use Rattle.ddm_tree.specs.Named.{name_of};
ghost use Rattle.ddm_tree.specs.Quiet.{AreLearnedBelow, IsTouched, KeepsHarts};
ghost use Rattle.ddm_tree.specs.Ready.{IsAskable, IsReady, Leads, LeadsBelow, HasChild, IsChild, IsItemIn, IsItemOf, IsRuled};
ghost use Rattle.ddm_tree.specs.Reads.{leaf_count, leaving_count, node_hart, node_entry, node_children, node_child};
ghost use Rattle.ddm_tree.specs.Reads.{node_child_hold, node_down, node_down_len, node_grants, node_leaf_lengths};
ghost use Rattle.ddm_tree.specs.Reads.{node_leaving_count, node_lengths, node_parked, node_state, node_states};
ghost use Rattle.ddm_tree.specs.Stamps.{node_stamps_fit};
ghost use Rattle.ddm_tree.specs.ReadBack.{PartRead, section_name};
ghost use Rattle.ddm_tree.specs.Written.{node_dir_words, node_words};

use crate::found::Found;
use crate::idle::Idle;
use crate::named::Named;
use crate::of_bus_judging::ChildFace;
use crate::of_ddm_types::{
    BusNo, ChildNo, Hold, ItemId, LeafNo, LeafState, NoMemory, Stamp, TurnAnswer, Words,
};
use crate::of_item_states::{Agent, DownEntry};
use crate::of_rv_hart::Hart;
use crate::of_state_reading::StateRefusal;
use crate::of_tree_model::{BusTurn, DirLengths, LeafLengths, LeafSpot, TreeChild};
use crate::quiet::Quiet;
use crate::section::Section;
use crate::turn_call::TurnCall;
use std::alloc::Global;

/// A part of the tree below a bus. A path has the child numbers from this part down to a leaf or a bus.
pub trait Subtree<const WORDS: usize>: Agent<WORDS> {
    /// The leaf's number, or the number of the directory's own bus.
    fn label(&self) -> TreeChild
        ensures { result ≡ child_label (Self.value self.now) };

    /// One turn of a leaf or a bus: `rest` is the path from here to it, and `present` the stamp of the bus above this part. The answer
    /// is put where the caller wants it: it would be copied at each level.
    fn turn(
        &mut self,
        call: &TurnCall<'_>,
        rest: &[ChildNo],
        present: &Stamp,
        answer: &mut TurnAnswer,
    )
        requires size { call.now.items.now.size ≡ 4 * WORDS }
        requires ready { IsReady (item_count call.now.items.now) WORDS (Self.value self.old) }
        requires leads { Leads (named_by call.now.turn.now) rest.now (Self.value self.old) }
        requires child { HasChild (bus_turn_of call.now.turn.now) (node_at rest.now (Self.value self.old)) }
        ensures answer { answer.new
            ≡ node_answer call.now.code.now call.now.items.now call.now.turn.now call.now.path.now
            (present_at rest.now present.now (Self.value self.old)) (node_at rest.now (Self.value self.old)) }
        ensures after { Self.value self.new
            ≡ put_at rest.now
            (node_turned call.now.code.now call.now.items.now call.now.turn.now call.now.path.now
            (present_at rest.now present.now (Self.value self.old))
            (node_at rest.now (Self.value self.old))) (Self.value self.old) };

    /// Whether a Down, Request or Reply turn of this bus would be granted.
    fn grants_below(&self, bus: BusNo, path: &[ChildNo], turn: BusTurn) -> bool
        requires askable { IsAskable WORDS (Self.value self.now) }
        requires kind { goes_on_with turn ≡ true }
        requires leads { LeadsBelow (bus_of_number bus) path.now (Self.value self.now) }
        requires child { HasChild turn (node_at path.now (Self.value self.now)) }
        ensures { (above : Stamp) → result ≡ node_grants above turn (node_at path.now (Self.value self.now)) };

    /// Learns anew what the buses in this part find, as far as a turn of the leaf or bus at the end of this path that answers so may have
    /// changed it.
    fn learn_below(&self, known: &mut [Quiet], path: &[ChildNo], answer: &TurnAnswer)
        requires fits { WORDS < 2 ^ 32 }
        ensures learned { AreLearnedBelow (IsTouched answer.now path.now) (Self.value self.now) known.old known.new }
        ensures harts { KeepsHarts known.old known.new };

    /// Learns whether nothing is on its way down to the bus below this part, where there is one.
    fn learn_down(&self, known: &mut [Quiet])
        requires fits { WORDS < 2 ^ 32 }
        ensures learned { AreLearnedBelow (λ q t. (q ≡ []) × (t ≡ BusTurn.Down)) (Self.value self.now) known.old known.new }
        ensures harts { KeepsHarts known.old known.new };

    /// Why the hart of the leaf at a path's end is idle, as far as that leaf tells it; None where no leaf is there.
    fn rest_below(&self, path: &[ChildNo]) -> Option<Idle>
        ensures { IfSome result (λ i. node_rests (node_at path.now (Self.value self.now)) ≡ Some i) };

    /// The number of the leaf that is this child of the bus at a path's end; None where no leaf is there.
    fn leaf_below(&self, path: &[ChildNo], place: usize) -> Option<LeafNo>
        ensures { (k : ℕ) → Leads (leaf_of_number k) (path.now ++ place ∷ []) (Self.value self.now) → result ≡ Some k };

    /// The path from here to a leaf or a bus, from its end on; None where it isn't in this part.
    fn path_up(&self, alloc: Global, name: &Named) -> Result<Option<Vec<ChildNo>>, NoMemory>
        requires { widths_fit (skeleton (Self.value self.now)) ≡ true }
        ensures { IfOk result
            (λ found. option_map vec_items found
            ≡ option_map reverse (path_to (name_of name.now) (skeleton (Self.value self.now)))) };

    /// The hart of this leaf.
    fn hart_below(&self, leaf: LeafNo, path: &[ChildNo]) -> &Hart
        requires { Leads (leaf_of_number leaf) path.now (Self.value self.now) }
        ensures { result.now ≡ node_hart (node_at path.now (Self.value self.now)) };

    /// The present stamp of this leaf's bus.
    fn stamp_below(&self, leaf: LeafNo, path: &[ChildNo], present: Stamp) -> Stamp
        requires { Leads (leaf_of_number leaf) path.now (Self.value self.now) }
        ensures { result ≡ present_at path.now present (Self.value self.now) };

    /// This leaf's entry of an item, and where it stands.
    fn entry_below(
        &self,
        leaf: LeafNo,
        path: &[ChildNo],
        item: ItemId,
    ) -> Option<(LeafState, Words<WORDS>, LeafSpot)>
        requires leads { Leads (leaf_of_number leaf) path.now (Self.value self.now) }
        requires in_range { item < node_items (node_at path.now (Self.value self.now)) }
        ensures { result ≡ node_entry item (node_at path.now (Self.value self.now)) };

    /// The state of this leaf's entry of an item.
    fn state_below(&self, leaf: LeafNo, path: &[ChildNo], item: ItemId) -> Option<LeafState>
        requires { Leads (leaf_of_number leaf) path.now (Self.value self.now) }
        ensures { result ≡ node_state item (node_at path.now (Self.value self.now)) };

    /// Puts the states of an item's entries at the leaves of this part, in order, into places from one on, and says which place is next.
    fn states_below(&self, item: ItemId, states: &mut [Option<LeafState>], at: usize) -> usize
        requires ruled { IsRuled item (Self.value self.now) }
        requires room { at + leaf_count (Self.value self.now) ≤ length states.old }
        ensures next { result ≡ at + leaf_count (Self.value self.now) }
        ensures states { take result states.new ≡ take at states.old ++ node_states item (Self.value self.now) };

    /// The same where this part doesn't hold the item: a leaf then has an entry of it only if it waits for it.
    fn unheld_states_below(
        &self,
        item: ItemId,
        states: &mut [Option<LeafState>],
        at: usize,
    ) -> usize
        requires ruled { IsRuled item (Self.value self.now) }
        requires unheld { child_holds item (Self.value self.now) ≡ false }
        requires room { at + leaf_count (Self.value self.now) ≤ length states.old }
        ensures next { result ≡ at + leaf_count (Self.value self.now) }
        ensures states { take result states.new ≡ take at states.old ++ node_states item (Self.value self.now) };

    /// How many children this bus has.
    fn children_below(&self, bus: BusNo, path: &[ChildNo]) -> u32
        requires buses { widths_fit (skeleton (Self.value self.now)) ≡ true }
        requires leads { LeadsBelow (bus_of_number bus) path.now (Self.value self.now) }
        ensures { result ≡ node_children (node_at path.now (Self.value self.now)) };

    /// A child of this bus.
    fn child_below(&self, bus: BusNo, path: &[ChildNo], child: ChildNo) -> TreeChild
        requires leads { LeadsBelow (bus_of_number bus) path.now (Self.value self.now) }
        requires child { IsChild child (node_at path.now (Self.value self.now)) }
        ensures { result ≡ node_child child (node_at path.now (Self.value self.now)) };

    /// What a child of this bus holds of an item.
    fn hold_below(&self, bus: BusNo, path: &[ChildNo], child: ChildNo, item: ItemId) -> Hold
        requires leads { LeadsBelow (bus_of_number bus) path.now (Self.value self.now) }
        requires child { IsChild child (node_at path.now (Self.value self.now)) }
        requires in_range { IsItemOf child item (node_at path.now (Self.value self.now)) }
        ensures { result ≡ node_child_hold child item (node_at path.now (Self.value self.now)) };

    /// How many of its copies may leave.
    fn leaving_count(&self) -> u32
        ensures { result ≡ leaving_count (Self.value self.now) };

    /// How many copies of a child of this bus may leave.
    fn leaving_count_below(&self, bus: BusNo, path: &[ChildNo], child: ChildNo) -> u32
        requires leads { LeadsBelow (bus_of_number bus) path.now (Self.value self.now) }
        requires child { IsChild child (node_at path.now (Self.value self.now)) }
        ensures { result ≡ node_leaving_count child (node_at path.now (Self.value self.now)) };

    /// An entry of the down list over this bus.
    fn down_below(&self, bus: BusNo, path: &[ChildNo], place: u32) -> Option<DownEntry<WORDS>>
        requires { LeadsBelow (bus_of_number bus) path.now (Self.value self.now) }
        ensures { result ≡ node_down place (node_at path.now (Self.value self.now)) };

    /// How many entries the down list over this bus has.
    fn down_len_below(&self, bus: BusNo, path: &[ChildNo]) -> u32
        requires { LeadsBelow (bus_of_number bus) path.now (Self.value self.now) }
        ensures { result ≡ node_down_len (node_at path.now (Self.value self.now)) };

    /// How long the lists of the directory over this bus are.
    fn lengths_below(&self, bus: BusNo, path: &[ChildNo]) -> DirLengths
        requires { LeadsBelow (bus_of_number bus) path.now (Self.value self.now) }
        ensures { result ≡ node_lengths (node_at path.now (Self.value self.now)) };

    /// How long the lists of this leaf are.
    fn leaf_lengths_below(&self, leaf: LeafNo, path: &[ChildNo]) -> LeafLengths
        requires { Leads (leaf_of_number leaf) path.now (Self.value self.now) }
        ensures { result ≡ node_leaf_lengths (node_at path.now (Self.value self.now)) };

    /// Whether the stamps are in order that the directory over this bus keeps, where the bus above this part has this present stamp.
    fn stamps_fit_below(&self, bus: BusNo, path: &[ChildNo], present: &Stamp) -> bool
        requires { LeadsBelow (bus_of_number bus) path.now (Self.value self.now) }
        ensures { result
            ≡ node_stamps_fit (present_at path.now present.now (Self.value self.now))
            (node_at path.now (Self.value self.now)) };

    /// The copy of an item that is parked at this bus, with its place.
    fn parked_below(
        &self,
        bus: BusNo,
        path: &[ChildNo],
        item: ItemId,
    ) -> Option<(u32, Words<WORDS>)>
        requires leads { LeadsBelow (bus_of_number bus) path.now (Self.value self.now) }
        requires in_range { item < node_items (node_at path.now (Self.value self.now)) }
        ensures { result ≡ node_parked item (node_at path.now (Self.value self.now)) };

    /// What its bus sees of it, of this item.
    fn face(&self, item: ItemId) -> ChildFace
        requires { item < node_items (Self.value self.now) }
        ensures { result ≡ child_face item (Self.value self.now) };

    /// The least item that breaks a rule of this bus, of so many items.
    fn broken_below(&self, bus: BusNo, path: &[ChildNo], items: u32) -> Option<ItemId>
        requires judged { IsJudged items (Self.value self.now) }
        requires leads { LeadsBelow (bus_of_number bus) path.now (Self.value self.now) }
        ensures { result ≡ node_broken items (node_at path.now (Self.value self.now)) };

    /// How many ways the sets of its leaves have, by the first of these.
    fn ways_below(&self) -> u32
        ensures { result ≡ way_count_of (Self.value self.now) };

    /// Puts the words of this leaf's hart at the end.
    fn write_hart_below(
        &self,
        leaf: LeafNo,
        path: &[ChildNo],
        out: &mut Vec<u32>,
    ) -> Result<(), NoMemory>
        requires { Leads (leaf_of_number leaf) path.now (Self.value self.now) }
        ensures ok { OnOk result (Adds out.old.items out.new.items (node_words hart_words (node_at path.now (Self.value self.now)))) }
        ensures err { OnErr result (Begins out.old.items out.new.items) };

    /// Puts the words of this leaf at the end, but those of its hart.
    fn write_leaf_below(
        &self,
        leaf: LeafNo,
        path: &[ChildNo],
        out: &mut Vec<u32>,
    ) -> Result<(), NoMemory>
        requires { Leads (leaf_of_number leaf) path.now (Self.value self.now) }
        ensures ok { OnOk result (Adds out.old.items out.new.items (node_words leaf_words (node_at path.now (Self.value self.now)))) }
        ensures err { OnErr result (Begins out.old.items out.new.items) };

    /// Puts the words of the directory over this bus at the end.
    fn write_part_below(
        &self,
        bus: BusNo,
        path: &[ChildNo],
        out: &mut Vec<u32>,
    ) -> Result<(), NoMemory>
        requires { LeadsBelow (bus_of_number bus) path.now (Self.value self.now) }
        ensures ok { OnOk result (Adds out.old.items out.new.items (node_dir_words (node_at path.now (Self.value self.now)))) }
        ensures err { OnErr result (Begins out.old.items out.new.items) };

    /// Reads the words of a section, from this one on, into the leaf or the directory at the path's end, and gives the number of the
    /// next word. After a refusal that node has some of them.
    fn read_below(
        &mut self,
        section: Section,
        path: &[ChildNo],
        words: &[u32],
        from: u32,
    ) -> Result<u32, StateRefusal>
        requires few { length words.now < 2 ^ 32 }
        requires inside { from ≤ length words.now }
        requires buses { widths_fit (skeleton (Self.value self.old)) ≡ true }
        requires leads { Leads (section_name section) path.now (Self.value self.old) }
        ensures read { PartRead section path.now words.now from (Self.value self.old) (Self.value self.new) result }
        ensures inside { IfOk result (λ at. at ≤ length words.now) };

    /// Marks the items that this part holds before the run.
    fn mark_held(&self, held: &mut [bool])
        requires few { length held.old < 2 ^ 32 }
        requires whole { length held.old ≡ length (held_by (Self.value self.now)) }
        ensures { held.new ≡ or_each held.old (held_by (Self.value self.now)) };

    /// The found copy of an item in this part.
    fn found_below(&self, item: ItemId) -> Option<Found<WORDS>>
        requires { IsItemIn item (Self.value self.now) }
        ensures { result ≡ found_of (place_found item (Self.value self.now)) (words_found item (Self.value self.now)) };
}
