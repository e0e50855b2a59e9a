//! Turns, questions and walks go from a directory to its children.

ghost use Rattle.std.specs.Prelude.{◌≡◌, ℕ, ◌+◌, ◌*◌, ◌<◌, ◌≤◌, ◌++◌, All, true, length, map, slice_set, take};
ghost use Rattle.ddm_tree.specs.DdmTypes.declared.keys.Stamp.{Stamp};
ghost use Rattle.ddm_tree.specs.TreeModel.State.Values.{DirValue, dir_node, nodes};
ghost use Rattle.ddm_tree.specs.TreeModel.State.Shape.{skeleton, widths_fit};
ghost use Rattle.ddm_tree.specs.TreeModel.State.Directory.{stamp_of};
ghost use Rattle.ddm_tree.specs.DdmTypes.ItemTable.{item_count};
ghost use Rattle.ddm_tree.specs.TreeModel.Turns.Machine.{named_by, bus_turn_of};
ghost use Rattle.ddm_tree.specs.TreeModel.Turns.Children.{child_at};
ghost use Rattle.ddm_tree.specs.TreeModel.Turns.Tree.{leaf_of_number, bus_of_number};
ghost use Rattle.ddm_tree.specs.ItemStates.Parts.{node_items};
ghost use Rattle.split_bus.specs.Outcomes.{goes_on_with};
ghost use Rattle.ddm_tree.specs.Path.{node_at, present_at, put_at, node_answer, node_turned};
ghost use Rattle.ddm_tree.specs.Judging.{IsJudged};
ghost use Rattle.ddm_tree.specs.Named.{name_of};
ghost use Rattle.ddm_tree.specs.Ready.{IsAskable, IsReady, Leads, LeadsBelow, HasChild, IsChild, IsItemOf, IsRuled};
ghost use Rattle.ddm_tree.specs.Reads.{leaf_count_among, node_hart, node_entry, node_children, node_child};
ghost use Rattle.ddm_tree.specs.Reads.{node_child_hold, node_down, node_down_len, node_grants, node_leaf_lengths};
ghost use Rattle.ddm_tree.specs.Reads.{node_leaving_count, node_lengths, node_parked, node_state, states_among};

use crate::named::Named;
use crate::of_ddm_types::{
    BusNo, ChildNo, Hold, ItemId, LeafNo, LeafState, Stamp, TurnAnswer, Words,
};
use crate::of_item_states::{DownEntry, Parent};
use crate::of_rv_hart::Hart;
use crate::of_tree_model::{BusTurn, DirLengths, LeafLengths, LeafSpot, TreeChild};
use crate::subtree::Subtree;
use crate::turn_call::TurnCall;
use crate::turns::on_bus;
use split_bus::{grant_into, would_grant};

/// The child of a directory that a path leads to, and the rest of the path.
pub(crate) fn next<'a, 'b, const WORDS: usize, P: Parent<WORDS>, C: Subtree<WORDS>>(
    parent: &P,
    children: &'a [C],
    name: Named,
    path: &'b [ChildNo],
) -> (&'a C, &'b [ChildNo])
    requires leads { Leads (name_of name) path.now (dir_node (P.state parent.now) (nodes (map C.value children.now))) }
    requires on { 0 < length path.now }
    ensures leads { Leads (name_of name) result.1.now (C.value result.0.now) }
    ensures below { LeadsBelow (name_of name) result.1.now (C.value result.0.now) }
    ensures node { node_at path.now (dir_node (P.state parent.now) (nodes (map C.value children.now)))
        ≡ node_at result.1.now (C.value result.0.now) }
    ensures present { (s : Stamp) →
        present_at path.now s (dir_node (P.state parent.now) (nodes (map C.value children.now)))
        ≡ present_at result.1.now (stamp_of (P.state parent.now)) (C.value result.0.now) }
    ensures fits { widths_fit (skeleton (dir_node (P.state parent.now) (nodes (map C.value children.now))))
        ≡ true → widths_fit (skeleton (C.value result.0.now)) ≡ true }
    ensures askable { IsAskable WORDS (dir_node (P.state parent.now) (nodes (map C.value children.now))) →
        IsAskable WORDS (C.value result.0.now) }
    ensures judged { (items : ℕ) →
        IsJudged items (dir_node (P.state parent.now) (nodes (map C.value children.now))) →
        IsJudged items (C.value result.0.now) }
{
    match path.split_first() {
        Some((child, rest)) => (&children[child.0 as usize], rest),
        None => unreachable!(),
    }
}

/// One turn of a child, or of a part below it.
#[inline(always)]
fn turn_of_child<const WORDS: usize, C: Subtree<WORDS>>(
    children: &mut [C],
    c: ChildNo,
    call: &TurnCall<'_>,
    rest: &[ChildNo],
    present: &Stamp,
    answer: &mut TurnAnswer,
)
    requires child { c < length children.old }
    requires size { call.now.items.now.size ≡ 4 * WORDS }
    requires ready { IsReady (item_count call.now.items.now) WORDS (child_at c (map C.value children.old)) }
    requires leads { Leads (named_by call.now.turn.now) rest.now (child_at c (map C.value children.old)) }
    requires names { HasChild (bus_turn_of call.now.turn.now) (node_at rest.now (child_at c (map C.value children.old))) }
    ensures answer { let n = child_at c (map C.value children.old) in
        answer.new
        ≡ node_answer call.now.code.now call.now.items.now call.now.turn.now call.now.path.now
        (present_at rest.now present.now n) (node_at rest.now n) }
    ensures after { let n = child_at c (map C.value children.old) in
        map C.value children.new
        ≡ slice_set (map C.value children.old) c
        (put_at rest.now
        (node_turned call.now.code.now call.now.items.now call.now.turn.now call.now.path.now
        (present_at rest.now present.now n) (node_at rest.now n)) n) }
{
    children[c.0 as usize].turn(call, rest, present, answer);
}

/// One turn of a directory's own bus, or of a leaf or bus below it: `rest` is the path from the directory.
pub(crate) fn turn_under<const WORDS: usize, P: Parent<WORDS>, C: Subtree<WORDS>>(
    parent: &mut P,
    children: &mut [C],
    call: &TurnCall<'_>,
    rest: &[ChildNo],
    present: &Stamp,
    answer: &mut TurnAnswer,
)
    requires size { call.now.items.now.size ≡ 4 * WORDS }
    requires ready { IsReady (item_count call.now.items.now) WORDS (dir_node (P.state parent.old) (nodes (map C.value children.old))) }
    requires leads { Leads (named_by call.now.turn.now) rest.now (dir_node (P.state parent.old) (nodes (map C.value children.old))) }
    requires child { HasChild (bus_turn_of call.now.turn.now)
        (node_at rest.now (dir_node (P.state parent.old) (nodes (map C.value children.old)))) }
    ensures answer { let n = dir_node (P.state parent.old) (nodes (map C.value children.old)) in
        answer.new
        ≡ node_answer call.now.code.now call.now.items.now call.now.turn.now call.now.path.now
        (present_at rest.now present.now n) (node_at rest.now n) }
    ensures after { let n = dir_node (P.state parent.old) (nodes (map C.value children.old)) in
        dir_node (P.state parent.new) (nodes (map C.value children.new))
        ≡ put_at rest.now
        (node_turned call.now.code.now call.now.items.now call.now.turn.now call.now.path.now
        (present_at rest.now present.now n) (node_at rest.now n)) n }
{
    match rest.split_first() {
        Some((child, further)) => {
            let below = parent.stamp();
            turn_of_child(children, *child, call, further, &below, answer);
        }
        None => grant_into(parent, children, *present, on_bus(call.turn), answer),
    }
}

/// Whether a Down, Request or Reply turn of a bus, of a directory or below it, would be granted.
pub(crate) fn grants_under<const WORDS: usize, P: Parent<WORDS>, C: Subtree<WORDS>>(
    parent: &P,
    children: &[C],
    bus: BusNo,
    path: &[ChildNo],
    turn: BusTurn,
) -> bool
    requires askable { IsAskable WORDS (dir_node (P.state parent.now) (nodes (map C.value children.now))) }
    requires kind { goes_on_with turn ≡ true }
    requires leads { Leads (bus_of_number bus) path.now (dir_node (P.state parent.now) (nodes (map C.value children.now))) }
    requires child { HasChild turn (node_at path.now (dir_node (P.state parent.now) (nodes (map C.value children.now)))) }
    ensures { (above : Stamp) →
        result
        ≡ node_grants above turn
        (node_at path.now (dir_node (P.state parent.now) (nodes (map C.value children.now)))) }
{
    if path.is_empty() {
        would_grant(parent, children, turn)
    } else {
        let (child, rest) = next(parent, children, Named::Bus(bus), path);
        child.grants_below(bus, rest, turn)
    }
}

/// The hart of a leaf below a directory.
pub(crate) fn hart_under<'a, const WORDS: usize, P: Parent<WORDS>, C: Subtree<WORDS>>(
    parent: &P,
    children: &'a [C],
    leaf: LeafNo,
    path: &[ChildNo],
) -> &'a Hart
    requires { Leads (leaf_of_number leaf) path.now (dir_node (P.state parent.now) (nodes (map C.value children.now))) }
    ensures { result.now ≡ node_hart (node_at path.now (dir_node (P.state parent.now) (nodes (map C.value children.now)))) }
{
    let (child, rest) = next(parent, children, Named::Leaf(leaf), path);
    child.hart_below(leaf, rest)
}

/// The present stamp of the bus of a leaf below a directory.
pub(crate) fn stamp_under<const WORDS: usize, P: Parent<WORDS>, C: Subtree<WORDS>>(
    parent: &P,
    children: &[C],
    leaf: LeafNo,
    path: &[ChildNo],
) -> Stamp
    requires leads { Leads (leaf_of_number leaf) path.now (dir_node (P.state parent.now) (nodes (map C.value children.now))) }
    ensures { (s : Stamp) → result ≡ present_at path.now s (dir_node (P.state parent.now) (nodes (map C.value children.now))) }
{
    let (child, rest) = next(parent, children, Named::Leaf(leaf), path);
    child.stamp_below(leaf, rest, parent.stamp())
}

/// The entry of an item at a leaf below a directory.
pub(crate) fn entry_under<const WORDS: usize, P: Parent<WORDS>, C: Subtree<WORDS>>(
    parent: &P,
    children: &[C],
    leaf: LeafNo,
    path: &[ChildNo],
    item: ItemId,
) -> Option<(LeafState, Words<WORDS>, LeafSpot)>
    requires leads { Leads (leaf_of_number leaf) path.now (dir_node (P.state parent.now) (nodes (map C.value children.now))) }
    requires in_range { item < node_items (node_at path.now (dir_node (P.state parent.now) (nodes (map C.value children.now)))) }
    ensures { result ≡ node_entry item (node_at path.now (dir_node (P.state parent.now) (nodes (map C.value children.now)))) }
{
    let (child, rest) = next(parent, children, Named::Leaf(leaf), path);
    child.entry_below(leaf, rest, item)
}

/// The state of that entry.
#[inline(always)]
pub(crate) fn state_under<const WORDS: usize, P: Parent<WORDS>, C: Subtree<WORDS>>(
    parent: &P,
    children: &[C],
    leaf: LeafNo,
    path: &[ChildNo],
    item: ItemId,
) -> Option<LeafState>
    requires leads { Leads (leaf_of_number leaf) path.now (dir_node (P.state parent.now) (nodes (map C.value children.now))) }
    ensures { result ≡ node_state item (node_at path.now (dir_node (P.state parent.now) (nodes (map C.value children.now)))) }
{
    let (child, rest) = next(parent, children, Named::Leaf(leaf), path);
    child.state_below(leaf, rest, item)
}

/// Puts the states of an item's entries at the leaves of these parts, in order, into places from one on, and says which place is next.
pub(crate) fn states_under<const WORDS: usize, C: Subtree<WORDS>>(
    children: &[C],
    item: ItemId,
    states: &mut [Option<LeafState>],
    at: usize,
) -> usize
    requires ruled { All (IsRuled item) (map C.value children.now) }
    requires room { at + leaf_count_among (map C.value children.now) ≤ length states.old }
    ensures next { result ≡ at + leaf_count_among (map C.value children.now) }
    ensures states { take result states.new ≡ take at states.old ++ states_among item (map C.value children.now) }
{
    let mut next = at;
    for child in children {
        next = child.states_below(item, states, next);
    }
    next
}

/// How many children a bus has, of a directory or below it.
pub(crate) fn children_under<const WORDS: usize, P: Parent<WORDS>, C: Subtree<WORDS>>(
    parent: &P,
    children: &[C],
    bus: BusNo,
    path: &[ChildNo],
) -> u32
    requires buses { widths_fit (skeleton (dir_node (P.state parent.now) (nodes (map C.value children.now)))) ≡ true }
    requires leads { Leads (bus_of_number bus) path.now (dir_node (P.state parent.now) (nodes (map C.value children.now))) }
    ensures { result ≡ node_children (node_at path.now (dir_node (P.state parent.now) (nodes (map C.value children.now)))) }
{
    if path.is_empty() {
        children.len() as u32
    } else {
        let (child, rest) = next(parent, children, Named::Bus(bus), path);
        child.children_below(bus, rest)
    }
}

/// A child of a bus, of a directory or below it.
pub(crate) fn child_under<const WORDS: usize, P: Parent<WORDS>, C: Subtree<WORDS>>(
    parent: &P,
    children: &[C],
    bus: BusNo,
    path: &[ChildNo],
    child: ChildNo,
) -> TreeChild
    requires leads { Leads (bus_of_number bus) path.now (dir_node (P.state parent.now) (nodes (map C.value children.now))) }
    requires child { IsChild child (node_at path.now (dir_node (P.state parent.now) (nodes (map C.value children.now)))) }
    ensures { result ≡ node_child child (node_at path.now (dir_node (P.state parent.now) (nodes (map C.value children.now)))) }
{
    if path.is_empty() {
        children[child.0 as usize].label()
    } else {
        let (part, rest) = next(parent, children, Named::Bus(bus), path);
        part.child_below(bus, rest, child)
    }
}

/// What a child of a bus holds of an item, of a directory or below it.
pub(crate) fn hold_under<const WORDS: usize, P: Parent<WORDS>, C: Subtree<WORDS>>(
    parent: &P,
    children: &[C],
    bus: BusNo,
    path: &[ChildNo],
    child: ChildNo,
    item: ItemId,
) -> Hold
    requires leads { Leads (bus_of_number bus) path.now (dir_node (P.state parent.now) (nodes (map C.value children.now))) }
    requires child { IsChild child (node_at path.now (dir_node (P.state parent.now) (nodes (map C.value children.now)))) }
    requires in_range { IsItemOf child item (node_at path.now (dir_node (P.state parent.now) (nodes (map C.value children.now)))) }
    ensures { result ≡ node_child_hold child item (node_at path.now (dir_node (P.state parent.now) (nodes (map C.value children.now)))) }
{
    if path.is_empty() {
        children[child.0 as usize].hold(item)
    } else {
        let (part, rest) = next(parent, children, Named::Bus(bus), path);
        part.hold_below(bus, rest, child, item)
    }
}

/// How many copies of a child of a bus may leave, of a directory or below it.
pub(crate) fn leaving_count_under<const WORDS: usize, P: Parent<WORDS>, C: Subtree<WORDS>>(
    parent: &P,
    children: &[C],
    bus: BusNo,
    path: &[ChildNo],
    child: ChildNo,
) -> u32
    requires leads { Leads (bus_of_number bus) path.now (dir_node (P.state parent.now) (nodes (map C.value children.now))) }
    requires child { IsChild child (node_at path.now (dir_node (P.state parent.now) (nodes (map C.value children.now)))) }
    ensures { result ≡ node_leaving_count child (node_at path.now (dir_node (P.state parent.now) (nodes (map C.value children.now)))) }
{
    if path.is_empty() {
        children[child.0 as usize].leaving_count()
    } else {
        let (part, rest) = next(parent, children, Named::Bus(bus), path);
        part.leaving_count_below(bus, rest, child)
    }
}

/// An entry of the down list over a bus below a directory.
pub(crate) fn down_under<const WORDS: usize, P: Parent<WORDS>, C: Subtree<WORDS>>(
    parent: &P,
    children: &[C],
    bus: BusNo,
    path: &[ChildNo],
    place: u32,
) -> Option<DownEntry<WORDS>>
    requires leads { Leads (bus_of_number bus) path.now (dir_node (P.state parent.now) (nodes (map C.value children.now))) }
    requires on { 0 < length path.now }
    ensures { result ≡ node_down place (node_at path.now (dir_node (P.state parent.now) (nodes (map C.value children.now)))) }
{
    let (part, rest) = next(parent, children, Named::Bus(bus), path);
    part.down_below(bus, rest, place)
}

/// How many entries the down list over a bus below a directory has.
pub(crate) fn down_len_under<const WORDS: usize, P: Parent<WORDS>, C: Subtree<WORDS>>(
    parent: &P,
    children: &[C],
    bus: BusNo,
    path: &[ChildNo],
) -> u32
    requires leads { Leads (bus_of_number bus) path.now (dir_node (P.state parent.now) (nodes (map C.value children.now))) }
    requires on { 0 < length path.now }
    ensures { result ≡ node_down_len (node_at path.now (dir_node (P.state parent.now) (nodes (map C.value children.now)))) }
{
    let (part, rest) = next(parent, children, Named::Bus(bus), path);
    part.down_len_below(bus, rest)
}

/// How long the lists of the directory over a bus below this one are.
pub(crate) fn lengths_under<const WORDS: usize, P: Parent<WORDS>, C: Subtree<WORDS>>(
    parent: &P,
    children: &[C],
    bus: BusNo,
    path: &[ChildNo],
) -> DirLengths
    requires leads { Leads (bus_of_number bus) path.now (dir_node (P.state parent.now) (nodes (map C.value children.now))) }
    requires on { 0 < length path.now }
    ensures { result ≡ node_lengths (node_at path.now (dir_node (P.state parent.now) (nodes (map C.value children.now)))) }
{
    let (part, rest) = next(parent, children, Named::Bus(bus), path);
    part.lengths_below(bus, rest)
}

/// How long the lists of a leaf below a directory are.
pub(crate) fn leaf_lengths_under<const WORDS: usize, P: Parent<WORDS>, C: Subtree<WORDS>>(
    parent: &P,
    children: &[C],
    leaf: LeafNo,
    path: &[ChildNo],
) -> LeafLengths
    requires { Leads (leaf_of_number leaf) path.now (dir_node (P.state parent.now) (nodes (map C.value children.now))) }
    ensures { result ≡ node_leaf_lengths (node_at path.now (dir_node (P.state parent.now) (nodes (map C.value children.now)))) }
{
    let (part, rest) = next(parent, children, Named::Leaf(leaf), path);
    part.leaf_lengths_below(leaf, rest)
}

/// The copy of an item that is parked at a bus below a directory, with its place.
pub(crate) fn parked_under<const WORDS: usize, P: Parent<WORDS>, C: Subtree<WORDS>>(
    parent: &P,
    children: &[C],
    bus: BusNo,
    path: &[ChildNo],
    item: ItemId,
) -> Option<(u32, Words<WORDS>)>
    requires leads { Leads (bus_of_number bus) path.now (dir_node (P.state parent.now) (nodes (map C.value children.now))) }
    requires on { 0 < length path.now }
    requires in_range { item < node_items (node_at path.now (dir_node (P.state parent.now) (nodes (map C.value children.now)))) }
    ensures { result ≡ node_parked item (node_at path.now (dir_node (P.state parent.now) (nodes (map C.value children.now)))) }
{
    let (part, rest) = next(parent, children, Named::Bus(bus), path);
    part.parked_below(bus, rest, item)
}
