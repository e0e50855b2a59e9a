//! An inject that comes down.

ghost use Rattle.std.specs.Prelude.{◌≡◌, ◌≤◌, Some, false, nat_eq, true, length, map};
ghost use Rattle.split_bus.specs.DdmTypes.declared.answers.TxKind.TheVariants.{InjectTx};
ghost use Rattle.split_bus.specs.TreeModel.State.Lists.{first_given};
ghost use Rattle.split_bus.specs.TreeModel.State.Directory.{is_parked};
ghost use Rattle.split_bus.specs.TreeModel.State.Child.{child_full_for, reader_has_place};
ghost use Rattle.split_bus.specs.TreeModel.Turns.Grant.{granted, outcome_of, unless_full};
ghost use Rattle.split_bus.specs.TreeModel.Turns.Children.{child_at, reader_full};
ghost use Rattle.split_bus.specs.TreeModel.Turns.Down.{down_inject, inject_parked, inject_taker, inject_to_child};
ghost use Rattle.split_bus.specs.TreeModel.Turns.Down.{inject_to_parking, inject_to_read, inject_to_reader};
ghost use Rattle.split_bus.specs.TreeModel.Turns.Down.{inject_to_readers, inject_to_taker};
ghost use Rattle.split_bus.specs.Children.{note_of, note_of_readers};
ghost use Rattle.split_bus.specs.Outcomes.{HaveItem, IsOutcome, IsReady, fronted};

use crate::answers::{full, granted};
use crate::children::{full_to_take_inject, reader_has_place};
use crate::hearers::{Hearers, find_full};
use crate::of_ddm_types::{ChildNo, Place, TurnAnswer, TxKind};
use crate::parent::{is_parked, take_front};
use crate::readers::{Noted, Readers};
use crate::sought::{Sought, find};
use crate::told::{take_data, take_inject};
use item_states::{Agent, DownEntry, Parent};

/// The only reader is told inject.
fn inject_to_reader<const WORDS: usize, P: Parent<WORDS>, C: Agent<WORDS>>(
    parent: &mut P,
    children: &mut [C],
    entry: &DownEntry<WORDS>,
    d: ChildNo,
) -> TurnAnswer
    requires few { length children.old ≤ 16 }
    requires place { reader_has_place entry.now.item (child_at d (map C.value children.old)) ≡ true }
    requires ready { IsReady WORDS entry.now.item (P.state parent.old) (map C.value children.old) }
    ensures { let x = entry.now.item in
        let p = P.state parent.old in
        let q = fronted entry.now p in
        let ns = map C.value children.old in
        IsOutcome
        (outcome_of p ns (unless_full (child_full_for InjectTx x (child_at d ns))
        (inject_to_reader x q ns entry.now.words d))) result (P.state parent.new)
        (map C.value children.new) }
{
    if let Some(list) = full_to_take_inject(children, d, entry.item) {
        return full(list);
    }
    let stamp = take_front(parent, entry.stamp);
    parent.set_note(entry.item, None);
    take_inject(children, d, entry.item, &entry.words, stamp);
    granted(
        parent,
        TxKind::InjectTx,
        entry.item,
        Place::Parent,
        Place::Child(d),
    )
}

/// Every reader is told data, and the parent goes on holding the item Exclusive.
fn inject_to_readers<const WORDS: usize, P: Parent<WORDS>, C: Agent<WORDS>>(
    parent: &mut P,
    children: &mut [C],
    entry: &DownEntry<WORDS>,
    readers: &Readers,
) -> TurnAnswer
    requires few { length children.old ≤ 16 }
    requires ready { IsReady WORDS entry.now.item (P.state parent.old) (map C.value children.old) }
    ensures { let x = entry.now.item in
        let p = P.state parent.old in
        let q = fronted entry.now p in
        let ns = map C.value children.old in
        IsOutcome
        (outcome_of p ns (unless_full (first_given (reader_full (note_of_readers readers.now) x) 0 ns)
        (inject_to_readers x q ns entry.now.words readers.now.first
        readers.now.joined))) result (P.state parent.new)
        (map C.value children.new) }
{
    if let Some(list) = find_full(children, &Hearers::TakeData(*readers), entry.item) {
        return full(list);
    }
    let stamp = take_front(parent, entry.stamp);
    parent.set_note(entry.item, None);
    take_data(children, readers, entry.item, &entry.words, stamp);
    granted(
        parent,
        TxKind::InjectTx,
        entry.item,
        Place::Parent,
        Place::Readers,
    )
}

/// One child reads, or several.
fn inject_to_read<const WORDS: usize, P: Parent<WORDS>, C: Agent<WORDS>>(
    parent: &mut P,
    children: &mut [C],
    entry: &DownEntry<WORDS>,
    readers: &Readers,
) -> TurnAnswer
    requires few { length children.old ≤ 16 }
    requires ready { IsReady WORDS entry.now.item (P.state parent.old) (map C.value children.old) }
    ensures { let x = entry.now.item in
        let p = P.state parent.old in
        let q = fronted entry.now p in
        let ns = map C.value children.old in
        IsOutcome
        (outcome_of p ns (inject_to_read x q ns entry.now.words readers.now.first readers.now.joined))
        result (P.state parent.new) (map C.value children.new) }
{
    if readers.joined != 0 {
        inject_to_readers(parent, children, entry, readers)
    } else if reader_has_place(children, readers.first, entry.item) {
        inject_to_reader(parent, children, entry, readers.first)
    } else {
        TurnAnswer::Empty
    }
}

/// Who takes an inject where nobody reads: a child with room, the lowest that waits for the item before the others.
pub(crate) fn inject_taker<const WORDS: usize, P: Parent<WORDS>, C: Agent<WORDS>>(
    parent: &P,
    children: &[C],
    entry: &DownEntry<WORDS>,
) -> Option<ChildNo>
    requires few { length children.now ≤ 16 }
    requires have { HaveItem entry.now.item (map C.value children.now) }
    ensures { result ≡ inject_taker entry.now.item (fronted entry.now (P.state parent.now)) (map C.value children.now) entry.now.words }
{
    match find(children, &Sought::WaiterWithRoom, entry.item) {
        Some(k) => Some(k),
        None => find(children, &Sought::Room, entry.item),
    }
}

/// Child `k` has room, and is told inject.
fn inject_to_child<const WORDS: usize, P: Parent<WORDS>, C: Agent<WORDS>>(
    parent: &mut P,
    children: &mut [C],
    entry: &DownEntry<WORDS>,
    k: ChildNo,
) -> TurnAnswer
    requires few { length children.old ≤ 16 }
    requires found { let p = P.state parent.old in
        inject_taker entry.now.item (fronted entry.now p) (map C.value children.old) entry.now.words ≡ Some k }
    requires ready { IsReady WORDS entry.now.item (P.state parent.old) (map C.value children.old) }
    ensures { let x = entry.now.item in
        let p = P.state parent.old in
        let q = fronted entry.now p in
        let ns = map C.value children.old in
        IsOutcome (outcome_of p ns (granted (inject_to_child x q ns entry.now.words k))) result
        (P.state parent.new) (map C.value children.new) }
{
    let stamp = take_front(parent, entry.stamp);
    parent.release_place();
    take_inject(children, k, entry.item, &entry.words, stamp);
    granted(
        parent,
        TxKind::InjectTx,
        entry.item,
        Place::Parent,
        Place::Child(k),
    )
}

/// The copy is parked in the place that was kept.
fn inject_parked<const WORDS: usize, P: Parent<WORDS>, C: Agent<WORDS>>(
    parent: &mut P,
    children: &mut [C],
    entry: &DownEntry<WORDS>,
) -> TurnAnswer
    requires few { length children.old ≤ 16 }
    requires once { is_parked entry.now.item (P.state parent.old) ≡ false }
    requires kept { nat_eq (P.state parent.old).reserved 0 ≡ false }
    requires ready { IsReady WORDS entry.now.item (P.state parent.old) (map C.value children.old) }
    ensures { let x = entry.now.item in
        let p = P.state parent.old in
        let q = fronted entry.now p in
        let ns = map C.value children.old in
        IsOutcome (outcome_of p ns (granted (inject_parked x q ns entry.now.words))) result
        (P.state parent.new) (map C.value children.new) }
{
    take_front(parent, entry.stamp);
    parent.park(entry.item, entry.words, true);
    granted(
        parent,
        TxKind::InjectTx,
        entry.item,
        Place::Parent,
        Place::Parking,
    )
}

/// No child has room.
fn inject_to_parking<const WORDS: usize, P: Parent<WORDS>, C: Agent<WORDS>>(
    parent: &mut P,
    children: &mut [C],
    entry: &DownEntry<WORDS>,
) -> TurnAnswer
    requires few { length children.old ≤ 16 }
    requires ready { IsReady WORDS entry.now.item (P.state parent.old) (map C.value children.old) }
    ensures { let x = entry.now.item in
        let p = P.state parent.old in
        let q = fronted entry.now p in
        let ns = map C.value children.old in
        IsOutcome (outcome_of p ns (inject_to_parking x q ns entry.now.words)) result (P.state parent.new)
        (map C.value children.new) }
{
    if is_parked(parent, entry.item) || !parent.keeps_place() {
        TurnAnswer::Empty
    } else {
        inject_parked(parent, children, entry)
    }
}

/// Nobody reads.
fn inject_to_taker<const WORDS: usize, P: Parent<WORDS>, C: Agent<WORDS>>(
    parent: &mut P,
    children: &mut [C],
    entry: &DownEntry<WORDS>,
) -> TurnAnswer
    requires few { length children.old ≤ 16 }
    requires ready { IsReady WORDS entry.now.item (P.state parent.old) (map C.value children.old) }
    ensures { let x = entry.now.item in
        let p = P.state parent.old in
        let q = fronted entry.now p in
        let ns = map C.value children.old in
        IsOutcome
        (outcome_of p ns (inject_to_taker x q ns entry.now.words (inject_taker x q ns entry.now.words)))
        result (P.state parent.new) (map C.value children.new) }
{
    match inject_taker(parent, children, entry) {
        Some(k) => inject_to_child(parent, children, entry, k),
        None => inject_to_parking(parent, children, entry),
    }
}

/// An inject comes down.
pub(crate) fn down_inject<const WORDS: usize, P: Parent<WORDS>, C: Agent<WORDS>>(
    parent: &mut P,
    children: &mut [C],
    entry: &DownEntry<WORDS>,
    noted: &Noted,
) -> TurnAnswer
    requires few { length children.old ≤ 16 }
    requires ready { IsReady WORDS entry.now.item (P.state parent.old) (map C.value children.old) }
    ensures { let x = entry.now.item in
        let p = P.state parent.old in
        let q = fronted entry.now p in
        let ns = map C.value children.old in
        IsOutcome (outcome_of p ns (down_inject x q ns entry.now.words (note_of noted.now))) result
        (P.state parent.new) (map C.value children.new) }
{
    match noted {
        Noted::UpRead(readers) => inject_to_read(parent, children, entry, readers),
        Noted::Nothing | Noted::Local(_) | Noted::UpErase(_) => {
            inject_to_taker(parent, children, entry)
        }
    }
}
