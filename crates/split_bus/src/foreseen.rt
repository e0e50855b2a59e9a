//! Whether a turn would be granted.

#![tactic(auto, using(crate::proofs::Granting::grants_unless_full))]

ghost use Rattle.std.specs.Prelude.{◌≡◌, ◌<◌, ◌≤◌, ◌^◌, IfSome, length, map, option_map, true};
ghost use Rattle.split_bus.specs.DdmTypes.declared.keys.Stamp.{Stamp};
ghost use Rattle.split_bus.specs.TreeModel.State.Lists.{find_from};
ghost use Rattle.split_bus.specs.TreeModel.State.States.{is_held};
ghost use Rattle.split_bus.specs.TreeModel.State.Child.{child_reply, child_request};
ghost use Rattle.split_bus.specs.TreeModel.State.Directory.{dir_hold, dir_note, is_answering, parked_words, pending};
ghost use Rattle.split_bus.specs.TreeModel.Turns.Bus.{bus_step, reply_turn, request_by_kind, request_turn};
ghost use Rattle.split_bus.specs.TreeModel.Turns.Children.{child_at, holds_item, other_holds};
ghost use Rattle.split_bus.specs.TreeModel.Turns.Down.{down_by_kind, down_by_note, down_data, down_erase};
ghost use Rattle.split_bus.specs.TreeModel.Turns.Down.{down_exclusive, down_inject, down_read, down_turn};
ghost use Rattle.split_bus.specs.TreeModel.Turns.Down.{inject_taker, inject_to_read, inject_to_taker};
ghost use Rattle.split_bus.specs.TreeModel.Turns.Reply.{reply_answering, reply_by_note};
ghost use Rattle.split_bus.specs.TreeModel.Turns.RequestErase.{request_erase};
ghost use Rattle.split_bus.specs.TreeModel.Turns.RequestRead.{read_granted, read_held, request_read};
ghost use Rattle.item_states.specs.Parts.{copy_pair, request_pair};
ghost use Rattle.split_bus.specs.Children.{note_of};
ghost use Rattle.split_bus.specs.Outcomes.{AreSized, IsKept, NamesOneOf, fronted, goes_on_with, grants, is_granted};

use crate::children::{
    full_to_answer, full_to_take_exclusive, full_to_take_inject, reader_has_place,
};
use crate::hearers::{Hearers, find_full};
use crate::inject::inject_taker;
use crate::of_ddm_types::{ChildNo, ItemId, Stamp, TxKind, Words};
use crate::of_tree_model::BusTurn;
use crate::parent::is_parked;
use crate::readers::{Noted, Readers};
use crate::request_erase::full_to_erase;
use crate::sought::{Sought, find, is_exclusive, is_held};
use item_states::{Agent, DownEntry, Parent, ParentList};

/// A read that comes down finds a child or the parked copy to answer it.
fn down_read_goes<const WORDS: usize, P: Parent<WORDS>, C: Agent<WORDS>>(
    parent: &P,
    children: &[C],
    entry: &DownEntry<WORDS>,
) -> bool
    requires few { length children.now ≤ 16 }
    requires kept { IsKept WORDS entry.now.item (P.state parent.now) (map C.value children.now) }
    ensures { let x = entry.now.item in
        let p = P.state parent.now in
        let q = fronted entry.now p in
        let ns = map C.value children.now in
        result ≡ grants (down_read x q ns (find_from (holds_item x) 0 ns) (parked_words x q)) }
{
    match find(children, &Sought::Holder, entry.item) {
        Some(k) => full_to_answer(children, k, entry.item).is_none(),
        None => match parent.parked(entry.item) {
            Some(_) => parent.list_full(ParentList::Replies).is_none(),
            None => false,
        },
    }
}

/// Data that comes down is for the readers of a read that was sent up.
fn down_data_goes<const WORDS: usize, P: Parent<WORDS>, C: Agent<WORDS>>(
    parent: &P,
    children: &[C],
    entry: &DownEntry<WORDS>,
    noted: &Noted,
) -> bool
    requires few { length children.now ≤ 16 }
    requires kept { IsKept WORDS entry.now.item (P.state parent.now) (map C.value children.now) }
    ensures { let x = entry.now.item in
        let p = P.state parent.now in
        let q = fronted entry.now p in
        let ns = map C.value children.now in
        result ≡ grants (down_data x q ns entry.now.words (note_of noted.now)) }
{
    match noted {
        Noted::UpRead(readers) => {
            find_full(children, &Hearers::TakeData(*readers), entry.item).is_none()
        }
        Noted::Nothing | Noted::Local(_) | Noted::UpErase(_) => false,
    }
}

/// An erase that comes down is for every child.
fn down_erase_goes<const WORDS: usize, P: Parent<WORDS>, C: Agent<WORDS>>(
    parent: &P,
    children: &[C],
    entry: &DownEntry<WORDS>,
) -> bool
    requires few { length children.now ≤ 16 }
    requires kept { IsKept WORDS entry.now.item (P.state parent.now) (map C.value children.now) }
    ensures { let x = entry.now.item in
        let p = P.state parent.now in
        let q = fronted entry.now p in
        let ns = map C.value children.now in result ≡ grants (down_erase x q ns) }
{
    find_full(children, &Hearers::LoseAll, entry.item).is_none()
}

/// Exclusive that comes down is for the child that erases.
fn down_exclusive_goes<const WORDS: usize, P: Parent<WORDS>, C: Agent<WORDS>>(
    parent: &P,
    children: &[C],
    entry: &DownEntry<WORDS>,
    noted: &Noted,
) -> bool
    requires kept { IsKept WORDS entry.now.item (P.state parent.now) (map C.value children.now) }
    ensures { let x = entry.now.item in
        let p = P.state parent.now in
        let q = fronted entry.now p in
        let ns = map C.value children.now in result ≡ grants (down_exclusive x q ns (note_of noted.now)) }
{
    match noted {
        Noted::UpErase(d) => full_to_take_exclusive(children, *d, entry.item).is_none(),
        Noted::Nothing | Noted::Local(_) | Noted::UpRead(_) => false,
    }
}

/// An inject that comes down finds its readers.
fn inject_read_goes<const WORDS: usize, P: Parent<WORDS>, C: Agent<WORDS>>(
    parent: &P,
    children: &[C],
    entry: &DownEntry<WORDS>,
    readers: &Readers,
) -> bool
    requires few { length children.now ≤ 16 }
    requires kept { IsKept WORDS entry.now.item (P.state parent.now) (map C.value children.now) }
    ensures { let x = entry.now.item in
        let p = P.state parent.now in
        let q = fronted entry.now p in
        let ns = map C.value children.now in
        result ≡ grants (inject_to_read x q ns entry.now.words readers.now.first readers.now.joined) }
{
    if readers.joined != 0 {
        find_full(children, &Hearers::TakeData(*readers), entry.item).is_none()
    } else {
        reader_has_place(children, readers.first, entry.item)
            && full_to_take_inject(children, readers.first, entry.item).is_none()
    }
}

/// An inject that nobody reads finds a child with room or the parking place that was kept.
fn inject_placed_goes<const WORDS: usize, P: Parent<WORDS>, C: Agent<WORDS>>(
    parent: &P,
    children: &[C],
    entry: &DownEntry<WORDS>,
) -> bool
    requires few { length children.now ≤ 16 }
    requires kept { IsKept WORDS entry.now.item (P.state parent.now) (map C.value children.now) }
    ensures { let x = entry.now.item in
        let p = P.state parent.now in
        let q = fronted entry.now p in
        let ns = map C.value children.now in
        result ≡ grants (inject_to_taker x q ns entry.now.words (inject_taker x q ns entry.now.words)) }
{
    inject_taker(parent, children, entry).is_some()
        || !is_parked(parent, entry.item) && parent.keeps_place()
}

/// An inject that comes down.
fn down_inject_goes<const WORDS: usize, P: Parent<WORDS>, C: Agent<WORDS>>(
    parent: &P,
    children: &[C],
    entry: &DownEntry<WORDS>,
    noted: &Noted,
) -> bool
    requires few { length children.now ≤ 16 }
    requires kept { IsKept WORDS entry.now.item (P.state parent.now) (map C.value children.now) }
    ensures { let x = entry.now.item in
        let p = P.state parent.now in
        let q = fronted entry.now p in
        let ns = map C.value children.now in
        result ≡ grants (down_inject x q ns entry.now.words (note_of noted.now)) }
{
    match noted {
        Noted::UpRead(readers) => inject_read_goes(parent, children, entry, readers),
        Noted::Nothing | Noted::Local(_) | Noted::UpErase(_) => {
            inject_placed_goes(parent, children, entry)
        }
    }
}

/// The entry by its kind.
fn down_kind_goes<const WORDS: usize, P: Parent<WORDS>, C: Agent<WORDS>>(
    parent: &P,
    children: &[C],
    entry: &DownEntry<WORDS>,
    noted: &Noted,
) -> bool
    requires few { length children.now ≤ 16 }
    requires noted { note_of noted.now ≡ dir_note entry.now.item (P.state parent.now) }
    requires kept { IsKept WORDS entry.now.item (P.state parent.now) (map C.value children.now) }
    ensures { let x = entry.now.item in
        let p = P.state parent.now in
        let q = fronted entry.now p in
        let ns = map C.value children.now in
        result ≡ grants (down_by_kind x q ns entry.now.words entry.now.kind) }
{
    match entry.kind {
        TxKind::ReadTx => down_read_goes(parent, children, entry),
        TxKind::DataTx => down_data_goes(parent, children, entry, noted),
        TxKind::EraseTx => down_erase_goes(parent, children, entry),
        TxKind::ExclusiveTx => down_exclusive_goes(parent, children, entry, noted),
        TxKind::InjectTx => down_inject_goes(parent, children, entry, noted),
        TxKind::OutTx => false,
    }
}

/// The entry, unless a child answers a read of its item.
fn down_entry_goes<const WORDS: usize, P: Parent<WORDS>, C: Agent<WORDS>>(
    parent: &P,
    children: &[C],
    entry: &DownEntry<WORDS>,
) -> bool
    requires few { length children.now ≤ 16 }
    requires kept { IsKept WORDS entry.now.item (P.state parent.now) (map C.value children.now) }
    ensures { let x = entry.now.item in
        let p = P.state parent.now in
        let q = fronted entry.now p in
        let ns = map C.value children.now in
        result ≡ grants (down_by_note x q ns entry.now.words entry.now.kind (dir_note x q)) }
{
    let noted = Noted::of(parent, entry.item);
    match &noted {
        Noted::Local(_) => false,
        Noted::Nothing | Noted::UpRead(_) | Noted::UpErase(_) => {
            down_kind_goes(parent, children, entry, &noted)
        }
    }
}

/// The first entry of the parent's down list.
fn down_goes<const WORDS: usize, P: Parent<WORDS>, C: Agent<WORDS>>(
    parent: &P,
    children: &[C],
) -> bool
    requires words_fit { WORDS < 2 ^ 32 }
    requires few { length children.now ≤ 16 }
    requires sized { AreSized (P.state parent.now) (map C.value children.now) }
    ensures { let p = P.state parent.now in let ns = map C.value children.now in result ≡ grants (down_turn p ns p.down) }
{
    match parent.first_down() {
        Some(entry) => down_entry_goes(parent, children, &entry),
        None => false,
    }
}

/// A parent that holds the item has another child or the parked copy give it.
fn read_held_goes<const WORDS: usize, P: Parent<WORDS>, C: Agent<WORDS>>(
    parent: &P,
    children: &[C],
    c: ChildNo,
    item: ItemId,
) -> bool
    requires few { length children.now ≤ 16 }
    requires kept { IsKept WORDS item (P.state parent.now) (map C.value children.now) }
    ensures { (above : Stamp) →
        let p = P.state parent.now in
        let ns = map C.value children.now in
        result
        ≡ grants (read_held c item p ns above (find_from (other_holds c item) 0 ns) (parked_words item p)) }
{
    match find(children, &Sought::OtherHolder(c), item) {
        Some(k) => full_to_answer(children, k, item).is_none(),
        None => match parent.parked(item) {
            Some(_) => parent.list_full(ParentList::Down).is_none(),
            None => false,
        },
    }
}

/// An item that isn't pending is read.
fn read_granted_goes<const WORDS: usize, P: Parent<WORDS>, C: Agent<WORDS>>(
    parent: &P,
    children: &[C],
    c: ChildNo,
    item: ItemId,
) -> bool
    requires few { length children.now ≤ 16 }
    requires kept { IsKept WORDS item (P.state parent.now) (map C.value children.now) }
    ensures { (above : Stamp) →
        let p = P.state parent.now in
        let ns = map C.value children.now in
        result ≡ grants (read_granted c item p ns above (is_held (dir_hold item p))) }
{
    if is_held(parent.hold(item)) {
        read_held_goes(parent, children, c, item)
    } else {
        parent.list_full(ParentList::Requests).is_none()
    }
}

/// Child `c` asks to read the item.
fn read_goes<const WORDS: usize, P: Parent<WORDS>, C: Agent<WORDS>>(
    parent: &P,
    children: &[C],
    c: ChildNo,
    item: ItemId,
) -> bool
    requires few { length children.now ≤ 16 }
    requires kept { IsKept WORDS item (P.state parent.now) (map C.value children.now) }
    ensures { (above : Stamp) →
        let p = P.state parent.now in
        let ns = map C.value children.now in
        result ≡ grants (request_read c item p ns above (dir_note item p)) }
{
    match Noted::of(parent, item) {
        Noted::Local(_) | Noted::UpRead(_) => true,
        Noted::Nothing | Noted::UpErase(_) => match parent.pending(item) {
            Some(_) => false,
            None => read_granted_goes(parent, children, c, item),
        },
    }
}

/// Child `c` asks to erase all other copies of the item.
fn erase_goes<const WORDS: usize, P: Parent<WORDS>, C: Agent<WORDS>>(
    parent: &P,
    children: &[C],
    c: ChildNo,
    item: ItemId,
) -> bool
    requires few { length children.now ≤ 16 }
    requires kept { IsKept WORDS item (P.state parent.now) (map C.value children.now) }
    ensures { (above : Stamp) →
        let p = P.state parent.now in
        let ns = map C.value children.now in
        result ≡ grants (request_erase above c item p ns (pending item p)) }
{
    match parent.pending(item) {
        Some(_) => false,
        None => {
            let exclusive = is_exclusive(parent.hold(item));
            full_to_erase(parent, children, Stamp::zero(), c, item, exclusive).is_none()
        }
    }
}

/// The request of child `c`.
fn named_request<const WORDS: usize, P: Parent<WORDS>, C: Agent<WORDS>>(
    parent: &P,
    children: &[C],
    c: ChildNo,
) -> Option<(TxKind, ItemId)>
    requires words_fit { WORDS < 2 ^ 32 }
    requires child { c < length children.now }
    requires sized { AreSized (P.state parent.now) (map C.value children.now) }
    ensures value { result ≡ option_map request_pair (child_request (child_at c (map C.value children.now))) }
    ensures kept { IfSome result (λ r. IsKept WORDS r.1 (P.state parent.now) (map C.value children.now)) }
{
    children[c.0 as usize].first_request()
}

/// The reply of child `c`.
fn named_reply<const WORDS: usize, P: Parent<WORDS>, C: Agent<WORDS>>(
    parent: &P,
    children: &[C],
    c: ChildNo,
) -> Option<(ItemId, Words<WORDS>)>
    requires words_fit { WORDS < 2 ^ 32 }
    requires child { c < length children.now }
    requires sized { AreSized (P.state parent.now) (map C.value children.now) }
    ensures value { result ≡ option_map copy_pair (child_reply (child_at c (map C.value children.now))) }
    ensures kept { IfSome result (λ r. IsKept WORDS r.0 (P.state parent.now) (map C.value children.now)) }
{
    children[c.0 as usize].first_reply()
}

/// Child `c`'s request of this kind for the item.
fn asked_goes<const WORDS: usize, P: Parent<WORDS>, C: Agent<WORDS>>(
    parent: &P,
    children: &[C],
    c: ChildNo,
    kind: TxKind,
    item: ItemId,
) -> bool
    requires few { length children.now ≤ 16 }
    requires kept { IsKept WORDS item (P.state parent.now) (map C.value children.now) }
    ensures { (above : Stamp) →
        let p = P.state parent.now in
        let ns = map C.value children.now in result ≡ grants (request_by_kind above p ns c item kind) }
{
    match kind {
        TxKind::ReadTx => read_goes(parent, children, c, item),
        TxKind::EraseTx => erase_goes(parent, children, c, item),
        TxKind::DataTx | TxKind::ExclusiveTx | TxKind::InjectTx | TxKind::OutTx => false,
    }
}

/// The request of child `c`.
fn request_goes<const WORDS: usize, P: Parent<WORDS>, C: Agent<WORDS>>(
    parent: &P,
    children: &[C],
    c: ChildNo,
) -> bool
    requires words_fit { WORDS < 2 ^ 32 }
    requires few { length children.now ≤ 16 }
    requires child { c < length children.now }
    requires sized { AreSized (P.state parent.now) (map C.value children.now) }
    ensures { (above : Stamp) →
        let p = P.state parent.now in
        let ns = map C.value children.now in
        result ≡ grants (request_turn above p ns c (child_request (child_at c ns))) }
{
    match named_request(parent, children, c) {
        Some((kind, item)) => asked_goes(parent, children, c, kind, item),
        None => false,
    }
}

/// Nobody on the bus waits for the reply; the parent may.
fn answering_goes<const WORDS: usize, P: Parent<WORDS>, C: Agent<WORDS>>(
    parent: &P,
    children: &[C],
    c: ChildNo,
    item: ItemId,
    words: &Words<WORDS>,
) -> bool
    requires { IsKept WORDS item (P.state parent.now) (map C.value children.now) }
    ensures { let p = P.state parent.now in
        let ns = map C.value children.now in
        result ≡ grants (reply_answering c item words.now p ns (is_answering item p)) }
{
    parent.answering(item) && parent.list_full(ParentList::Replies).is_none()
}

/// Child `c`'s reply carries the item with these words.
fn words_go<const WORDS: usize, P: Parent<WORDS>, C: Agent<WORDS>>(
    parent: &P,
    children: &[C],
    c: ChildNo,
    item: ItemId,
    words: &Words<WORDS>,
) -> bool
    requires few { length children.now ≤ 16 }
    requires kept { IsKept WORDS item (P.state parent.now) (map C.value children.now) }
    ensures { let p = P.state parent.now in
        let ns = map C.value children.now in
        result ≡ grants (reply_by_note c item words.now p ns (dir_note item p)) }
{
    match Noted::of(parent, item) {
        Noted::Local(readers) => {
            find_full(children, &Hearers::TakeData(readers), item).is_none()
        }
        Noted::Nothing | Noted::UpRead(_) | Noted::UpErase(_) => {
            answering_goes(parent, children, c, item, words)
        }
    }
}

/// The reply of child `c`.
fn reply_goes<const WORDS: usize, P: Parent<WORDS>, C: Agent<WORDS>>(
    parent: &P,
    children: &[C],
    c: ChildNo,
) -> bool
    requires words_fit { WORDS < 2 ^ 32 }
    requires few { length children.now ≤ 16 }
    requires child { c < length children.now }
    requires sized { AreSized (P.state parent.now) (map C.value children.now) }
    ensures { (above : Stamp) →
        let p = P.state parent.now in
        let ns = map C.value children.now in
        result ≡ grants (reply_turn above p ns c (child_reply (child_at c ns))) }
{
    match named_reply(parent, children, c) {
        Some((item, words)) => words_go(parent, children, c, item, &words),
        None => false,
    }
}

/// Whether a Down, Request or Reply turn of the bus would be granted. Nothing changes.
pub fn would_grant<const WORDS: usize, P: Parent<WORDS>, C: Agent<WORDS>>(
    parent: &P,
    children: &[C],
    turn: BusTurn,
) -> bool
    requires words_fit { WORDS < 2 ^ 32 }
    requires few { length children.now ≤ 16 }
    requires kind { goes_on_with turn ≡ true }
    requires child { NamesOneOf (length children.now) turn }
    requires sized { AreSized (P.state parent.now) (map C.value children.now) }
    ensures { (above : Stamp) → result ≡ is_granted (bus_step above turn (P.state parent.now) (map C.value children.now)).answer }
{
    match turn {
        BusTurn::Down => down_goes(parent, children),
        BusTurn::Request(c) => request_goes(parent, children, c),
        BusTurn::Reply(c) => reply_goes(parent, children, c),
        BusTurn::Leave(_, _) => unreachable!(),
    }
}
