//! The turn Leave: a copy leaves a child.

ghost use Rattle.std.specs.Prelude.{◌≡◌, ◌<◌, ◌≤◌, Some, false, true, length, map};
ghost use Rattle.split_bus.specs.TreeModel.State.States.{is_shared};
ghost use Rattle.split_bus.specs.TreeModel.State.Directory.{dir_hold, is_parked, parking_full};
ghost use Rattle.split_bus.specs.TreeModel.State.Child.{child_hold};
ghost use Rattle.split_bus.specs.TreeModel.Turns.Grant.{granted, outcome_of};
ghost use Rattle.split_bus.specs.TreeModel.Turns.Children.{child_at};
ghost use Rattle.split_bus.specs.TreeModel.Turns.Leave.{leave_by_hold, leave_inject, leave_of, leave_parked};
ghost use Rattle.split_bus.specs.TreeModel.Turns.Leave.{leave_shared, leave_taker, leave_to, other_copy, out_gone};
ghost use Rattle.split_bus.specs.TreeModel.Turns.Leave.{parked_unless_full};
ghost use Rattle.item_states.specs.Parts.{has_given};
ghost use Rattle.split_bus.specs.Outcomes.{HaveItem, IsOutcome, IsReady};

use crate::answers::{granted, pending};
use crate::children::child;
use crate::of_ddm_types::{BusyCause, ChildNo, Hold, ItemId, Place, TurnAnswer, TxKind};
use crate::parent::{is_parked, is_top};
use crate::sought::{Sought, find, is_shared};
use crate::told::{give_up, take_inject};
use item_states::{Agent, Parent};

/// Whether another child than `c`, or the parked copy, holds the item.
fn other_copy<const WORDS: usize, P: Parent<WORDS>, C: Agent<WORDS>>(
    parent: &P,
    children: &[C],
    c: ChildNo,
    item: ItemId,
) -> bool
    requires few { length children.now ≤ 16 }
    requires ready { IsReady WORDS item (P.state parent.now) (map C.value children.now) }
    ensures { result ≡ other_copy c item (P.state parent.now) (map C.value children.now) }
{
    find(children, &Sought::OtherHolder(c), item).is_some() || is_parked(parent, item)
}

/// The copy is dropped.
fn out_gone<const WORDS: usize, P: Parent<WORDS>, C: Agent<WORDS>>(
    parent: &mut P,
    children: &mut [C],
    c: ChildNo,
    item: ItemId,
) -> TurnAnswer
    requires few { length children.old ≤ 16 }
    requires child { c < length children.old }
    requires there { has_given item (child_at c (map C.value children.old)) ≡ true }
    requires ready { IsReady WORDS item (P.state parent.old) (map C.value children.old) }
    ensures { let p = P.state parent.old in
        let ns = map C.value children.old in
        IsOutcome (outcome_of p ns (granted (out_gone c item p ns))) result (P.state parent.new)
        (map C.value children.new) }
{
    parent.advance(None);
    give_up(children, c, item);
    granted(parent, TxKind::OutTx, item, Place::Child(c), Place::Gone)
}

/// The copy is parked at the parent, by an out or an inject.
fn leave_parked<const WORDS: usize, P: Parent<WORDS>, C: Agent<WORDS>>(
    parent: &mut P,
    children: &mut [C],
    c: ChildNo,
    item: ItemId,
    kind: TxKind,
) -> TurnAnswer
    requires few { length children.old ≤ 16 }
    requires child { c < length children.old }
    requires there { has_given item (child_at c (map C.value children.old)) ≡ true }
    requires once { is_parked item (P.state parent.old) ≡ false }
    requires place { parking_full (P.state parent.old) ≡ false }
    requires ready { IsReady WORDS item (P.state parent.old) (map C.value children.old) }
    ensures { let p = P.state parent.old in
        let ns = map C.value children.old in
        IsOutcome (outcome_of p ns (granted (leave_parked c item p ns kind))) result (P.state parent.new)
        (map C.value children.new) }
{
    parent.advance(None);
    let words = give_up(children, c, item);
    parent.park(item, words, false);
    granted(parent, kind, item, Place::Child(c), Place::Parking)
}

/// Child `k` is told inject.
fn leave_to<const WORDS: usize, P: Parent<WORDS>, C: Agent<WORDS>>(
    parent: &mut P,
    children: &mut [C],
    c: ChildNo,
    item: ItemId,
    k: ChildNo,
) -> TurnAnswer
    requires few { length children.old ≤ 16 }
    requires child { c < length children.old }
    requires there { has_given item (child_at c (map C.value children.old)) ≡ true }
    requires found { leave_taker c item (P.state parent.old) (map C.value children.old) ≡ Some k }
    requires ready { IsReady WORDS item (P.state parent.old) (map C.value children.old) }
    ensures { let p = P.state parent.old in
        let ns = map C.value children.old in
        IsOutcome (outcome_of p ns (granted (leave_to c item p ns k))) result (P.state parent.new)
        (map C.value children.new) }
{
    let stamp = parent.advance(None);
    let words = give_up(children, c, item);
    take_inject(children, k, item, &words, stamp);
    granted(
        parent,
        TxKind::InjectTx,
        item,
        Place::Child(c),
        Place::Child(k),
    )
}

/// Who takes the copy: the lowest other child that waits for it and has room, else the first behind `c` with room, else,
/// on the top's bus, the first before `c` with room.
fn leave_taker<const WORDS: usize, P: Parent<WORDS>, C: Agent<WORDS>>(
    parent: &P,
    children: &[C],
    c: ChildNo,
    item: ItemId,
) -> Option<ChildNo>
    requires few { length children.now ≤ 16 }
    requires have { HaveItem item (map C.value children.now) }
    ensures { result ≡ leave_taker c item (P.state parent.now) (map C.value children.now) }
{
    if let Some(k) = find(children, &Sought::OtherWaiterWithRoom(c), item) {
        return Some(k);
    }
    match find(children, &Sought::RoomBehind(c), item) {
        Some(k) => Some(k),
        None => {
            if is_top(parent) {
                find(children, &Sought::RoomBefore(c), item)
            } else {
                None
            }
        }
    }
}

/// The copy is parked, if there is a place.
fn parked_unless_full<const WORDS: usize, P: Parent<WORDS>, C: Agent<WORDS>>(
    parent: &mut P,
    children: &mut [C],
    c: ChildNo,
    item: ItemId,
    kind: TxKind,
) -> TurnAnswer
    requires few { length children.old ≤ 16 }
    requires child { c < length children.old }
    requires there { has_given item (child_at c (map C.value children.old)) ≡ true }
    requires ready { IsReady WORDS item (P.state parent.old) (map C.value children.old) }
    ensures { let p = P.state parent.old in
        let ns = map C.value children.old in
        IsOutcome (outcome_of p ns (parked_unless_full c item p ns kind)) result (P.state parent.new)
        (map C.value children.new) }
{
    if is_parked(parent, item) {
        TurnAnswer::Empty
    } else if parent.parking_full() {
        TurnAnswer::Busy(BusyCause::ParkingFull(parent.bus()))
    } else {
        leave_parked(parent, children, c, item, kind)
    }
}

/// The copy becomes an inject. Where nobody takes it, it is parked, and on the top's bus refused.
fn leave_inject<const WORDS: usize, P: Parent<WORDS>, C: Agent<WORDS>>(
    parent: &mut P,
    children: &mut [C],
    c: ChildNo,
    item: ItemId,
) -> TurnAnswer
    requires few { length children.old ≤ 16 }
    requires child { c < length children.old }
    requires there { has_given item (child_at c (map C.value children.old)) ≡ true }
    requires ready { IsReady WORDS item (P.state parent.old) (map C.value children.old) }
    ensures { let p = P.state parent.old in
        let ns = map C.value children.old in
        IsOutcome (outcome_of p ns (leave_inject c item p ns (leave_taker c item p ns))) result
        (P.state parent.new) (map C.value children.new) }
{
    match leave_taker(parent, children, c, item) {
        Some(k) => leave_to(parent, children, c, item, k),
        None => {
            if is_top(parent) {
                TurnAnswer::Busy(BusyCause::NoRoom(item))
            } else {
                parked_unless_full(parent, children, c, item, TxKind::InjectTx)
            }
        }
    }
}

/// A Shared copy is dropped where there is another, and else parked or passed on.
fn leave_shared<const WORDS: usize, P: Parent<WORDS>, C: Agent<WORDS>>(
    parent: &mut P,
    children: &mut [C],
    c: ChildNo,
    item: ItemId,
) -> TurnAnswer
    requires few { length children.old ≤ 16 }
    requires child { c < length children.old }
    requires there { has_given item (child_at c (map C.value children.old)) ≡ true }
    requires ready { IsReady WORDS item (P.state parent.old) (map C.value children.old) }
    ensures { let p = P.state parent.old in
        let ns = map C.value children.old in
        IsOutcome
        (outcome_of p ns (leave_shared c item p ns (other_copy c item p ns) (is_shared (dir_hold item p))))
        result (P.state parent.new) (map C.value children.new) }
{
    if other_copy(parent, children, c, item) {
        out_gone(parent, children, c, item)
    } else if is_shared(parent.hold(item)) {
        parked_unless_full(parent, children, c, item, TxKind::OutTx)
    } else {
        leave_inject(parent, children, c, item)
    }
}

/// The copy leaves by what the child holds.
fn leave_by_hold<const WORDS: usize, P: Parent<WORDS>, C: Agent<WORDS>>(
    parent: &mut P,
    children: &mut [C],
    c: ChildNo,
    item: ItemId,
) -> TurnAnswer
    requires few { length children.old ≤ 16 }
    requires child { c < length children.old }
    requires there { has_given item (child_at c (map C.value children.old)) ≡ true }
    requires ready { IsReady WORDS item (P.state parent.old) (map C.value children.old) }
    ensures { let p = P.state parent.old in
        let ns = map C.value children.old in
        IsOutcome (outcome_of p ns (leave_by_hold c item p ns (child_hold item (child_at c ns)))) result
        (P.state parent.new) (map C.value children.new) }
{
    match child(children, c, item).hold(item) {
        Hold::Shared => leave_shared(parent, children, c, item),
        Hold::Invalid | Hold::Exclusive => leave_inject(parent, children, c, item),
    }
}

/// A copy of the item leaves child `c`.
pub(crate) fn leave<const WORDS: usize, P: Parent<WORDS>, C: Agent<WORDS>>(
    parent: &mut P,
    children: &mut [C],
    c: ChildNo,
    item: ItemId,
) -> TurnAnswer
    requires few { length children.old ≤ 16 }
    requires child { c < length children.old }
    requires there { has_given item (child_at c (map C.value children.old)) ≡ true }
    requires ready { IsReady WORDS item (P.state parent.old) (map C.value children.old) }
    ensures { let p = P.state parent.old in
        let ns = map C.value children.old in
        IsOutcome (outcome_of p ns (leave_of c item p ns)) result (P.state parent.new)
        (map C.value children.new) }
{
    if let Some(why) = parent.pending(item) {
        return pending(parent, item, why);
    }
    match child(children, c, item).pending_below(item) {
        Some((bus, why)) => TurnAnswer::Busy(BusyCause::ItemPending { bus, item, why }),
        None => leave_by_hold(parent, children, c, item),
    }
}
