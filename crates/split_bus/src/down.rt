//! The turn Down: the first entry of the down list.

ghost use Rattle.std.specs.Prelude.{◌≡◌, ◌+◌, ◌<◌, ◌≤◌, ◌^◌, length, map};
ghost use Rattle.split_bus.specs.DdmTypes.declared.answers.TxKind.TheVariants.{ExclusiveTx, ReadTx};
ghost use Rattle.split_bus.specs.TreeModel.State.Lists.{find_from, first_given};
ghost use Rattle.split_bus.specs.TreeModel.State.Directory.{dir_note, parked_words, with_note, without_parked};
ghost use Rattle.split_bus.specs.TreeModel.State.Child.{child_full_for};
ghost use Rattle.split_bus.specs.TreeModel.Turns.Grant.{outcome_of, own_replies_full, unless_full};
ghost use Rattle.split_bus.specs.TreeModel.Turns.Children.{child_at, holds_item, reader_full};
ghost use Rattle.split_bus.specs.TreeModel.Turns.Down.{data_to_readers, down_by_kind, down_by_note, down_data};
ghost use Rattle.split_bus.specs.TreeModel.Turns.Down.{down_erase, down_exclusive, down_read, down_turn};
ghost use Rattle.split_bus.specs.TreeModel.Turns.Down.{exclusive_to, read_by_child, read_by_parked, without_up_erase};
ghost use Rattle.split_bus.specs.Children.{note_of, note_of_readers};
ghost use Rattle.split_bus.specs.Outcomes.{AreSized, IsOutcome, IsReady, fronted};

use crate::answers::{full, granted, pending};
use crate::children::{full_to_answer, full_to_take_exclusive};
use crate::hearers::{Hearers, find_full};
use crate::inject::down_inject;
use crate::of_ddm_types::{ChildNo, ItemId, PendingWhy, Place, TurnAnswer, TxKind, Words};
use crate::parent::take_front;
use crate::readers::{Noted, Readers};
use crate::reply::send_data;
use crate::sought::{Sought, find};
use crate::told::{answer, lose_all, take_data, take_exclusive};
use item_states::{Agent, DownEntry, Parent, ParentList};

/// The child that erases is told exclusive.
fn exclusive_to<const WORDS: usize, P: Parent<WORDS>, C: Agent<WORDS>>(
    parent: &mut P,
    children: &mut [C],
    entry: &DownEntry<WORDS>,
    d: ChildNo,
) -> TurnAnswer
    requires few { length children.old ≤ 16 }
    requires ready { IsReady WORDS entry.now.item (P.state parent.old) (map C.value children.old) }
    ensures { let x = entry.now.item in
        let p = P.state parent.old in
        let q = fronted entry.now p in
        let ns = map C.value children.old in
        IsOutcome
        (outcome_of p ns (unless_full (child_full_for ExclusiveTx x (child_at d ns))
        (exclusive_to x q ns d))) result (P.state parent.new)
        (map C.value children.new) }
{
    if let Some(list) = full_to_take_exclusive(children, d, entry.item) {
        return full(list);
    }
    let stamp = take_front(parent, entry.stamp);
    parent.set_note(entry.item, None);
    take_exclusive(children, d, entry.item, stamp);
    granted(
        parent,
        TxKind::ExclusiveTx,
        entry.item,
        Place::Parent,
        Place::Child(d),
    )
}

/// Exclusive is for the child that erases.
fn down_exclusive<const WORDS: usize, P: Parent<WORDS>, C: Agent<WORDS>>(
    parent: &mut P,
    children: &mut [C],
    entry: &DownEntry<WORDS>,
    noted: &Noted,
) -> TurnAnswer
    requires few { length children.old ≤ 16 }
    requires ready { IsReady WORDS entry.now.item (P.state parent.old) (map C.value children.old) }
    ensures { let x = entry.now.item in
        let p = P.state parent.old in
        let q = fronted entry.now p in
        let ns = map C.value children.old in
        IsOutcome (outcome_of p ns (down_exclusive x q ns (note_of noted.now))) result
        (P.state parent.new) (map C.value children.new) }
{
    match noted {
        Noted::UpErase(d) => exclusive_to(parent, children, entry, *d),
        Noted::Nothing | Noted::Local(_) | Noted::UpRead(_) => TurnAnswer::Empty,
    }
}

/// The parked copy ends, and so does a note of an erase that was sent up.
fn note_erased<const WORDS: usize, P: Parent<WORDS>>(parent: &mut P, item: ItemId, noted: &Noted)
    requires in_range { item < length (P.state parent.old).items }
    requires noted { note_of noted.now ≡ dir_note item (P.state parent.old) }
    ensures { let p = P.state parent.old in
        P.state parent.new ≡ with_note item (without_up_erase (dir_note item p)) (without_parked item p) }
{
    parent.unpark(item);
    if let Noted::UpErase(_) = noted {
        parent.set_note(item, None);
    }
}

/// Every child is told to lose the item.
fn down_erase<const WORDS: usize, P: Parent<WORDS>, C: Agent<WORDS>>(
    parent: &mut P,
    children: &mut [C],
    entry: &DownEntry<WORDS>,
    noted: &Noted,
) -> TurnAnswer
    requires few { length children.old ≤ 16 }
    requires noted { note_of noted.now ≡ dir_note entry.now.item (P.state parent.old) }
    requires ready { IsReady WORDS entry.now.item (P.state parent.old) (map C.value children.old) }
    ensures { let x = entry.now.item in
        let p = P.state parent.old in
        let q = fronted entry.now p in
        let ns = map C.value children.old in
        IsOutcome (outcome_of p ns (down_erase x q ns)) result (P.state parent.new)
        (map C.value children.new) }
{
    if let Some(list) = find_full(children, &Hearers::LoseAll, entry.item) {
        return full(list);
    }
    let stamp = take_front(parent, entry.stamp);
    note_erased(parent, entry.item, noted);
    lose_all(children, entry.item, stamp);
    granted(
        parent,
        TxKind::EraseTx,
        entry.item,
        Place::Parent,
        Place::All,
    )
}

/// Child `k`, the lowest that holds the item, is told to answer.
fn read_by_child<const WORDS: usize, P: Parent<WORDS>, C: Agent<WORDS>>(
    parent: &mut P,
    children: &mut [C],
    entry: &DownEntry<WORDS>,
    k: ChildNo,
) -> TurnAnswer
    requires few { length children.old ≤ 16 }
    requires within { k < length children.old }
    requires ready { IsReady WORDS entry.now.item (P.state parent.old) (map C.value children.old) }
    ensures { let x = entry.now.item in
        let p = P.state parent.old in
        let q = fronted entry.now p in
        let ns = map C.value children.old in
        IsOutcome
        (outcome_of p ns (unless_full (child_full_for ReadTx x (child_at k ns)) (read_by_child x q ns k)))
        result (P.state parent.new) (map C.value children.new) }
{
    if let Some(list) = full_to_answer(children, k, entry.item) {
        return full(list);
    }
    let stamp = take_front(parent, entry.stamp);
    answer(children, k, entry.item, stamp);
    granted(
        parent,
        TxKind::ReadTx,
        entry.item,
        Place::Parent,
        Place::Child(k),
    )
}

/// The parked copy answers by itself, and stays.
fn read_by_parked<const WORDS: usize, P: Parent<WORDS>, C: Agent<WORDS>>(
    parent: &mut P,
    children: &mut [C],
    entry: &DownEntry<WORDS>,
    words: &Words<WORDS>,
) -> TurnAnswer
    requires few { length children.old ≤ 16 }
    requires ready { IsReady WORDS entry.now.item (P.state parent.old) (map C.value children.old) }
    ensures { let x = entry.now.item in
        let p = P.state parent.old in
        let q = fronted entry.now p in
        let ns = map C.value children.old in
        IsOutcome (outcome_of p ns (unless_full (own_replies_full q) (read_by_parked x q ns words.now)))
        result (P.state parent.new) (map C.value children.new) }
{
    if let Some(list) = parent.list_full(ParentList::Replies) {
        return full(list);
    }
    take_front(parent, entry.stamp);
    send_data(parent, entry.item, words);
    granted(
        parent,
        TxKind::ReadTx,
        entry.item,
        Place::Parent,
        Place::Parking,
    )
}

/// A child or the parked copy answers the read.
fn down_read<const WORDS: usize, P: Parent<WORDS>, C: Agent<WORDS>>(
    parent: &mut P,
    children: &mut [C],
    entry: &DownEntry<WORDS>,
) -> TurnAnswer
    requires few { length children.old ≤ 16 }
    requires ready { IsReady WORDS entry.now.item (P.state parent.old) (map C.value children.old) }
    ensures { let x = entry.now.item in
        let p = P.state parent.old in
        let q = fronted entry.now p in
        let ns = map C.value children.old in
        IsOutcome (outcome_of p ns (down_read x q ns (find_from (holds_item x) 0 ns) (parked_words x q)))
        result (P.state parent.new) (map C.value children.new) }
{
    match find(children, &Sought::Holder, entry.item) {
        Some(k) => read_by_child(parent, children, entry, k),
        None => match parent.parked(entry.item) {
            Some(words) => read_by_parked(parent, children, entry, &words),
            None => TurnAnswer::Empty,
        },
    }
}

/// Every reader is told data.
fn data_to_readers<const WORDS: usize, P: Parent<WORDS>, C: Agent<WORDS>>(
    parent: &mut P,
    children: &mut [C],
    entry: &DownEntry<WORDS>,
    readers: &Readers,
) -> TurnAnswer
    requires few { length children.old ≤ 16 }
    requires ready { IsReady WORDS entry.now.item (P.state parent.old) (map C.value children.old) }
    ensures { let x = entry.now.item in
        let p = P.state parent.old in
        let q = fronted entry.now p in
        let ns = map C.value children.old in
        IsOutcome
        (outcome_of p ns (unless_full (first_given (reader_full (note_of_readers readers.now) x) 0 ns)
        (data_to_readers x q ns entry.now.words readers.now.first readers.now.joined)))
        result (P.state parent.new) (map C.value children.new) }
{
    if let Some(list) = find_full(children, &Hearers::TakeData(*readers), entry.item) {
        return full(list);
    }
    let stamp = take_front(parent, entry.stamp);
    parent.set_note(entry.item, None);
    take_data(children, readers, entry.item, &entry.words, stamp);
    granted(
        parent,
        TxKind::DataTx,
        entry.item,
        Place::Parent,
        readers.taker(),
    )
}

/// Data is for the readers of a read that was sent up.
fn down_data<const WORDS: usize, P: Parent<WORDS>, C: Agent<WORDS>>(
    parent: &mut P,
    children: &mut [C],
    entry: &DownEntry<WORDS>,
    noted: &Noted,
) -> TurnAnswer
    requires few { length children.old ≤ 16 }
    requires ready { IsReady WORDS entry.now.item (P.state parent.old) (map C.value children.old) }
    ensures { let x = entry.now.item in
        let p = P.state parent.old in
        let q = fronted entry.now p in
        let ns = map C.value children.old in
        IsOutcome (outcome_of p ns (down_data x q ns entry.now.words (note_of noted.now))) result
        (P.state parent.new) (map C.value children.new) }
{
    match noted {
        Noted::UpRead(readers) => data_to_readers(parent, children, entry, readers),
        Noted::Nothing | Noted::Local(_) | Noted::UpErase(_) => TurnAnswer::Empty,
    }
}

/// The entry by its kind.
fn down_by_kind<const WORDS: usize, P: Parent<WORDS>, C: Agent<WORDS>>(
    parent: &mut P,
    children: &mut [C],
    entry: &DownEntry<WORDS>,
    noted: &Noted,
) -> TurnAnswer
    requires few { length children.old ≤ 16 }
    requires noted { note_of noted.now ≡ dir_note entry.now.item (P.state parent.old) }
    requires ready { IsReady WORDS entry.now.item (P.state parent.old) (map C.value children.old) }
    ensures { let x = entry.now.item in
        let p = P.state parent.old in
        let q = fronted entry.now p in
        let ns = map C.value children.old in
        IsOutcome (outcome_of p ns (down_by_kind x q ns entry.now.words entry.now.kind)) result
        (P.state parent.new) (map C.value children.new) }
{
    match entry.kind {
        TxKind::ReadTx => down_read(parent, children, entry),
        TxKind::DataTx => down_data(parent, children, entry, noted),
        TxKind::EraseTx => down_erase(parent, children, entry, noted),
        TxKind::ExclusiveTx => down_exclusive(parent, children, entry, noted),
        TxKind::InjectTx => down_inject(parent, children, entry, noted),
        TxKind::OutTx => TurnAnswer::Empty,
    }
}

/// The entry, unless a child answers a read of its item.
fn down_by_note<const WORDS: usize, P: Parent<WORDS>, C: Agent<WORDS>>(
    parent: &mut P,
    children: &mut [C],
    entry: &DownEntry<WORDS>,
) -> TurnAnswer
    requires few { length children.old ≤ 16 }
    requires ready { IsReady WORDS entry.now.item (P.state parent.old) (map C.value children.old) }
    ensures { let x = entry.now.item in
        let p = P.state parent.old in
        let q = fronted entry.now p in
        let ns = map C.value children.old in
        IsOutcome (outcome_of p ns (down_by_note x q ns entry.now.words entry.now.kind (dir_note x q)))
        result (P.state parent.new) (map C.value children.new) }
{
    let noted = Noted::of(parent, entry.item);
    match &noted {
        Noted::Local(readers) => pending(parent, entry.item, PendingWhy::Local(readers.first)),
        Noted::Nothing | Noted::UpRead(_) | Noted::UpErase(_) => {
            down_by_kind(parent, children, entry, &noted)
        }
    }
}

/// The first entry of the parent's down list comes down.
pub(crate) fn down<const WORDS: usize, P: Parent<WORDS>, C: Agent<WORDS>>(
    parent: &mut P,
    children: &mut [C],
    answer: &mut TurnAnswer,
)
    requires words_fit { WORDS < 2 ^ 32 }
    requires width { (P.state parent.old).sizes.width ≡ WORDS }
    requires count { (P.state parent.old).count + 1 < 2 ^ 32 }
    requires few { length children.old ≤ 16 }
    requires sized { AreSized (P.state parent.old) (map C.value children.old) }
    ensures { let p = P.state parent.old in
        let ns = map C.value children.old in
        IsOutcome (outcome_of p ns (down_turn p ns p.down)) answer.new (P.state parent.new)
        (map C.value children.new) }
{
    match parent.first_down() {
        Some(entry) => *answer = down_by_note(parent, children, &entry),
        None => *answer = TurnAnswer::Empty,
    }
}
