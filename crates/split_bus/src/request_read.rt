//! The turn Request, for a read.

ghost use Rattle.std.specs.Prelude.{◌≡◌, ◌<◌, ◌≤◌, Some, length, map};
ghost use Rattle.split_bus.specs.DdmTypes.declared.answers.TxKind.TheVariants.{ReadTx};
ghost use Rattle.split_bus.specs.TreeModel.State.Lists.{find_from};
ghost use Rattle.split_bus.specs.TreeModel.State.States.{is_held};
ghost use Rattle.split_bus.specs.TreeModel.State.Directory.{dir_hold, dir_note, parked_words};
ghost use Rattle.split_bus.specs.TreeModel.State.Child.{child_full_for};
ghost use Rattle.split_bus.specs.TreeModel.Turns.Grant.{granted, outcome_of, own_down_full, own_requests_full, unless_full};
ghost use Rattle.split_bus.specs.TreeModel.Turns.Children.{child_at, other_holds};
ghost use Rattle.split_bus.specs.TreeModel.Turns.RequestRead.{joins, read_granted, read_held, read_of_child};
ghost use Rattle.split_bus.specs.TreeModel.Turns.RequestRead.{read_of_parent, read_of_parked, request_read};
ghost use Rattle.split_bus.specs.Outcomes.{IsOutcome, IsReady};

use crate::answers::{full, granted, pending};
use crate::children::full_to_answer;
use crate::of_ddm_types::{ChildNo, ItemId, PendingWhy, Place, Stamp, TurnAnswer, TxKind, Words};
use crate::readers::Noted;
use crate::sought::{Sought, find, is_held};
use crate::told::{answer, take_request};
use item_states::{Agent, DownEntry, Parent, ParentList};

/// The request joins the read that is under way.
fn joins<const WORDS: usize, P: Parent<WORDS>, C: Agent<WORDS>>(
    parent: &mut P,
    children: &mut [C],
    c: ChildNo,
    item: ItemId,
) -> TurnAnswer
    requires few { length children.old ≤ 16 }
    requires child { c < length children.old }
    requires ready { IsReady WORDS item (P.state parent.old) (map C.value children.old) }
    ensures { let p = P.state parent.old in
        let ns = map C.value children.old in
        IsOutcome (outcome_of p ns (granted (joins c item p ns))) result (P.state parent.new)
        (map C.value children.new) }
{
    parent.advance(None);
    parent.join(item, c);
    take_request(children, c);
    granted(parent, TxKind::ReadTx, item, Place::Child(c), Place::Joined)
}

/// Child `k`, the lowest other one that holds the item, is told to answer.
fn read_of_child<const WORDS: usize, P: Parent<WORDS>, C: Agent<WORDS>>(
    parent: &mut P,
    children: &mut [C],
    c: ChildNo,
    k: ChildNo,
    item: ItemId,
) -> TurnAnswer
    requires few { length children.old ≤ 16 }
    requires child { c < length children.old }
    requires found { find_from (other_holds c item) 0 (map C.value children.old) ≡ Some k }
    requires within { k < length children.old }
    requires ready { IsReady WORDS item (P.state parent.old) (map C.value children.old) }
    ensures { let p = P.state parent.old in
        let ns = map C.value children.old in
        IsOutcome
        (outcome_of p ns (unless_full (child_full_for ReadTx item (child_at k ns))
        (read_of_child c item p ns k))) result (P.state parent.new)
        (map C.value children.new) }
{
    if let Some(list) = full_to_answer(children, k, item) {
        return full(list);
    }
    let stamp = parent.advance(None);
    parent.set_note(item, Some(PendingWhy::Local(c)));
    answer(children, k, item, stamp);
    take_request(children, c);
    granted(
        parent,
        TxKind::ReadTx,
        item,
        Place::Child(c),
        Place::Child(k),
    )
}

/// The parked copy goes down as data.
fn read_of_parked<const WORDS: usize, P: Parent<WORDS>, C: Agent<WORDS>>(
    parent: &mut P,
    children: &mut [C],
    above: Stamp,
    c: ChildNo,
    item: ItemId,
    words: &Words<WORDS>,
) -> TurnAnswer
    requires few { length children.old ≤ 16 }
    requires child { c < length children.old }
    requires ready { IsReady WORDS item (P.state parent.old) (map C.value children.old) }
    ensures { let p = P.state parent.old in
        let ns = map C.value children.old in
        IsOutcome
        (outcome_of p ns (unless_full (own_down_full p) (read_of_parked c item p ns above words.now)))
        result (P.state parent.new) (map C.value children.new) }
{
    if let Some(list) = parent.list_full(ParentList::Down) {
        return full(list);
    }
    parent.advance(None);
    parent.set_note(item, Some(PendingWhy::UpRead(c)));
    parent.unpark(item);
    parent.push_down(DownEntry {
        kind: TxKind::DataTx,
        item,
        words: *words,
        stamp: above,
    });
    take_request(children, c);
    granted(
        parent,
        TxKind::ReadTx,
        item,
        Place::Child(c),
        Place::Parking,
    )
}

/// The read goes up.
fn read_of_parent<const WORDS: usize, P: Parent<WORDS>, C: Agent<WORDS>>(
    parent: &mut P,
    children: &mut [C],
    c: ChildNo,
    item: ItemId,
) -> TurnAnswer
    requires few { length children.old ≤ 16 }
    requires child { c < length children.old }
    requires ready { IsReady WORDS item (P.state parent.old) (map C.value children.old) }
    ensures { let p = P.state parent.old in
        let ns = map C.value children.old in
        IsOutcome (outcome_of p ns (unless_full (own_requests_full p) (read_of_parent c item p ns))) result
        (P.state parent.new) (map C.value children.new) }
{
    if let Some(list) = parent.list_full(ParentList::Requests) {
        return full(list);
    }
    parent.advance(None);
    parent.set_note(item, Some(PendingWhy::UpRead(c)));
    parent.push_request(TxKind::ReadTx, item);
    take_request(children, c);
    granted(parent, TxKind::ReadTx, item, Place::Child(c), Place::Parent)
}

/// A parent that holds the item has another child or the parked copy give it.
fn read_held<const WORDS: usize, P: Parent<WORDS>, C: Agent<WORDS>>(
    parent: &mut P,
    children: &mut [C],
    above: Stamp,
    c: ChildNo,
    item: ItemId,
) -> TurnAnswer
    requires few { length children.old ≤ 16 }
    requires child { c < length children.old }
    requires ready { IsReady WORDS item (P.state parent.old) (map C.value children.old) }
    ensures { let p = P.state parent.old in
        let ns = map C.value children.old in
        IsOutcome
        (outcome_of p ns (read_held c item p ns above (find_from (other_holds c item) 0 ns)
        (parked_words item p))) result (P.state parent.new) (map C.value children.new) }
{
    match find(children, &Sought::OtherHolder(c), item) {
        Some(k) => read_of_child(parent, children, c, k, item),
        None => match parent.parked(item) {
            Some(words) => read_of_parked(parent, children, above, c, item, &words),
            None => TurnAnswer::Empty,
        },
    }
}

/// An item that isn't pending is read.
fn read_granted<const WORDS: usize, P: Parent<WORDS>, C: Agent<WORDS>>(
    parent: &mut P,
    children: &mut [C],
    above: Stamp,
    c: ChildNo,
    item: ItemId,
) -> TurnAnswer
    requires few { length children.old ≤ 16 }
    requires child { c < length children.old }
    requires ready { IsReady WORDS item (P.state parent.old) (map C.value children.old) }
    ensures { let p = P.state parent.old in
        let ns = map C.value children.old in
        IsOutcome (outcome_of p ns (read_granted c item p ns above (is_held (dir_hold item p)))) result
        (P.state parent.new) (map C.value children.new) }
{
    if is_held(parent.hold(item)) {
        read_held(parent, children, above, c, item)
    } else {
        read_of_parent(parent, children, c, item)
    }
}

/// Child `c` asks to read the item.
pub(crate) fn request_read<const WORDS: usize, P: Parent<WORDS>, C: Agent<WORDS>>(
    parent: &mut P,
    children: &mut [C],
    above: Stamp,
    c: ChildNo,
    item: ItemId,
) -> TurnAnswer
    requires few { length children.old ≤ 16 }
    requires child { c < length children.old }
    requires ready { IsReady WORDS item (P.state parent.old) (map C.value children.old) }
    ensures { let p = P.state parent.old in
        let ns = map C.value children.old in
        IsOutcome (outcome_of p ns (request_read c item p ns above (dir_note item p))) result
        (P.state parent.new) (map C.value children.new) }
{
    match Noted::of(parent, item) {
        Noted::Local(_) | Noted::UpRead(_) => joins(parent, children, c, item),
        Noted::Nothing | Noted::UpErase(_) => match parent.pending(item) {
            Some(why) => pending(parent, item, why),
            None => read_granted(parent, children, above, c, item),
        },
    }
}
