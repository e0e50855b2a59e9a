//! The turn Reply: a child gives a copy.

ghost use Rattle.std.specs.Prelude.{◌≡◌, ◌<◌, ◌≤◌, false, length, map};
ghost use Rattle.split_bus.specs.DdmTypes.declared.sizes.Hold.TheVariants.{Shared};
ghost use Rattle.split_bus.specs.TreeModel.State.Lists.{first_given};
ghost use Rattle.split_bus.specs.TreeModel.State.Directory.{dir_note, is_answering, pushed_reply, replies_full, with_answering, with_hold};
ghost use Rattle.split_bus.specs.TreeModel.Turns.Grant.{outcome_of, own_replies_full, unless_full};
ghost use Rattle.split_bus.specs.TreeModel.Turns.Children.{reader_full};
ghost use Rattle.split_bus.specs.TreeModel.Turns.Reply.{reply_answering, reply_by_note, reply_to_parent, reply_to_readers};
ghost use Rattle.split_bus.specs.Children.{note_of_readers};
ghost use Rattle.split_bus.specs.Outcomes.{IsOutcome, IsReady};

use crate::answers::{full, granted};
use crate::hearers::{Hearers, find_full};
use crate::of_ddm_types::{ChildNo, ItemId, Place, TurnAnswer, TxKind, Words};
use crate::readers::{Noted, Readers};
use crate::told::{take_data, take_reply};
use item_states::{Agent, Parent, ParentList};

/// Every reader is told data.
fn reply_to_readers<const WORDS: usize, P: Parent<WORDS>, C: Agent<WORDS>>(
    parent: &mut P,
    children: &mut [C],
    c: ChildNo,
    item: ItemId,
    words: &Words<WORDS>,
    readers: &Readers,
) -> TurnAnswer
    requires few { length children.old ≤ 16 }
    requires child { c < length children.old }
    requires ready { IsReady WORDS item (P.state parent.old) (map C.value children.old) }
    ensures { let p = P.state parent.old in
        let ns = map C.value children.old in
        IsOutcome
        (outcome_of p ns (unless_full (first_given (reader_full (note_of_readers readers.now) item) 0 ns)
        (reply_to_readers c item words.now p ns readers.now.first readers.now.joined)))
        result (P.state parent.new) (map C.value children.new) }
{
    if let Some(list) = find_full(children, &Hearers::TakeData(*readers), item) {
        return full(list);
    }
    let stamp = parent.advance(None);
    parent.set_note(item, None);
    take_reply(children, c);
    take_data(children, readers, item, words, stamp);
    granted(
        parent,
        TxKind::DataTx,
        item,
        Place::Child(c),
        readers.taker(),
    )
}

/// Data goes up, and the parent holds the item Shared.
pub(crate) fn send_data<const WORDS: usize, P: Parent<WORDS>>(
    parent: &mut P,
    item: ItemId,
    words: &Words<WORDS>,
)
    requires in_range { item < length (P.state parent.old).items }
    requires room { replies_full (P.state parent.old) ≡ false }
    ensures { P.state parent.new ≡ pushed_reply item words.now (with_answering item false (with_hold item Shared (P.state parent.old))) }
{
    parent.end_answering(item);
    parent.push_reply(item, *words);
}

/// The parent answers with the child's words.
fn reply_to_parent<const WORDS: usize, P: Parent<WORDS>, C: Agent<WORDS>>(
    parent: &mut P,
    children: &mut [C],
    c: ChildNo,
    item: ItemId,
    words: &Words<WORDS>,
) -> TurnAnswer
    requires few { length children.old ≤ 16 }
    requires child { c < length children.old }
    requires ready { IsReady WORDS item (P.state parent.old) (map C.value children.old) }
    ensures { let p = P.state parent.old in
        let ns = map C.value children.old in
        IsOutcome (outcome_of p ns (unless_full (own_replies_full p) (reply_to_parent c item words.now p ns)))
        result (P.state parent.new) (map C.value children.new) }
{
    if let Some(list) = parent.list_full(ParentList::Replies) {
        return full(list);
    }
    parent.advance(None);
    send_data(parent, item, words);
    take_reply(children, c);
    granted(parent, TxKind::DataTx, item, Place::Child(c), Place::Parent)
}

/// Where nobody on the bus waits for the reply, the parent may.
fn reply_answering<const WORDS: usize, P: Parent<WORDS>, C: Agent<WORDS>>(
    parent: &mut P,
    children: &mut [C],
    c: ChildNo,
    item: ItemId,
    words: &Words<WORDS>,
) -> TurnAnswer
    requires few { length children.old ≤ 16 }
    requires child { c < length children.old }
    requires ready { IsReady WORDS item (P.state parent.old) (map C.value children.old) }
    ensures { let p = P.state parent.old in
        let ns = map C.value children.old in
        IsOutcome (outcome_of p ns (reply_answering c item words.now p ns (is_answering item p))) result
        (P.state parent.new) (map C.value children.new) }
{
    if parent.answering(item) {
        reply_to_parent(parent, children, c, item, words)
    } else {
        TurnAnswer::Empty
    }
}

/// Child `c`'s reply carries the item with these words.
pub(crate) fn reply<const WORDS: usize, P: Parent<WORDS>, C: Agent<WORDS>>(
    parent: &mut P,
    children: &mut [C],
    c: ChildNo,
    item: ItemId,
    words: &Words<WORDS>,
) -> TurnAnswer
    requires few { length children.old ≤ 16 }
    requires child { c < length children.old }
    requires ready { IsReady WORDS item (P.state parent.old) (map C.value children.old) }
    ensures { let p = P.state parent.old in
        let ns = map C.value children.old in
        IsOutcome (outcome_of p ns (reply_by_note c item words.now p ns (dir_note item p))) result
        (P.state parent.new) (map C.value children.new) }
{
    match Noted::of(parent, item) {
        Noted::Local(readers) => reply_to_readers(parent, children, c, item, words, &readers),
        Noted::Nothing | Noted::UpRead(_) | Noted::UpErase(_) => {
            reply_answering(parent, children, c, item, words)
        }
    }
}
