//! What children are told.

ghost use Rattle.std.specs.Prelude.{◌≡◌, ◌^◌, ◌<◌, ◌≤◌, None, true, length, map};
ghost use Rattle.split_bus.specs.DdmTypes.declared.answers.TxKind.TheVariants.{ExclusiveTx, InjectTx, ReadTx};
ghost use Rattle.split_bus.specs.TreeModel.State.Lists.{first_given, map_from};
ghost use Rattle.split_bus.specs.TreeModel.State.Child.{child_answer, child_full_for, child_give_up, child_given};
ghost use Rattle.split_bus.specs.TreeModel.State.Child.{child_reply_taken, child_request_taken, child_take_exclusive};
ghost use Rattle.split_bus.specs.TreeModel.State.Child.{child_take_inject, reader_has_place};
ghost use Rattle.split_bus.specs.TreeModel.Turns.Children.{child_at, erased_by, loses, only, reader_takes};
ghost use Rattle.item_states.specs.Parts.{has_given, node_items};
ghost use Rattle.split_bus.specs.Children.{full_to_hear, note_of_readers};
ghost use Rattle.split_bus.specs.Outcomes.{HaveItem};
ghost use Rattle.split_bus.specs.declared.hearers.Hearers.TheVariants.{LoseAll, LoseOthers, TakeData};

use crate::of_ddm_types::{ChildNo, ItemId, Stamp, Words};
use crate::readers::Readers;
use item_states::Agent;

/// Child `c`'s request was granted.
pub(crate) fn take_request<const WORDS: usize, C: Agent<WORDS>>(children: &mut [C], c: ChildNo)
    requires { c < length children.old }
    ensures { map C.value children.new ≡ map_from (only c child_request_taken) 0 (map C.value children.old) }
{
    children[c.0 as usize].take_request();
}

/// Child `c`'s reply was granted.
pub(crate) fn take_reply<const WORDS: usize, C: Agent<WORDS>>(children: &mut [C], c: ChildNo)
    requires { c < length children.old }
    ensures { map C.value children.new ≡ map_from (only c child_reply_taken) 0 (map C.value children.old) }
{
    children[c.0 as usize].take_reply();
}

/// Child `c`'s copy leaves.
pub(crate) fn give_up<const WORDS: usize, C: Agent<WORDS>>(
    children: &mut [C],
    c: ChildNo,
    item: ItemId,
) -> Words<WORDS>
    requires child { c < length children.old }
    requires have { HaveItem item (map C.value children.old) }
    requires there { has_given item (child_at c (map C.value children.old)) ≡ true }
    ensures given { result ≡ child_given item (child_at c (map C.value children.old)) }
    ensures kids { map C.value children.new ≡ map_from (only c (child_give_up item)) 0 (map C.value children.old) }
{
    children[c.0 as usize].give_up(item)
}

/// Child `k` is told to answer a read.
pub(crate) fn answer<const WORDS: usize, C: Agent<WORDS>>(
    children: &mut [C],
    k: ChildNo,
    item: ItemId,
    stamp: Stamp,
)
    requires child { k < length children.old }
    requires have { HaveItem item (map C.value children.old) }
    requires room { child_full_for ReadTx item (child_at k (map C.value children.old)) ≡ None }
    ensures { map C.value children.new ≡ map_from (only k (child_answer item stamp)) 0 (map C.value children.old) }
{
    children[k.0 as usize].answer(item, stamp);
}

/// Child `k`, if it is there, is told exclusive.
pub(crate) fn take_exclusive<const WORDS: usize, C: Agent<WORDS>>(
    children: &mut [C],
    k: ChildNo,
    item: ItemId,
    stamp: Stamp,
)
    requires have { HaveItem item (map C.value children.old) }
    requires room { child_full_for ExclusiveTx item (child_at k (map C.value children.old)) ≡ None }
    ensures { map C.value children.new ≡ map_from (only k (child_take_exclusive item stamp)) 0 (map C.value children.old) }
{
    let k = k.0 as usize;
    if k < children.len() {
        children[k].take_exclusive(item, stamp);
    }
}

/// Child `k`, if it is there, is told inject.
pub(crate) fn take_inject<const WORDS: usize, C: Agent<WORDS>>(
    children: &mut [C],
    k: ChildNo,
    item: ItemId,
    words: &Words<WORDS>,
    stamp: Stamp,
)
    requires words_fit { WORDS < 2 ^ 32 }
    requires have { HaveItem item (map C.value children.old) }
    requires room { child_full_for InjectTx item (child_at k (map C.value children.old)) ≡ None }
    requires place { reader_has_place item (child_at k (map C.value children.old)) ≡ true }
    ensures { map C.value children.new ≡ map_from (only k (child_take_inject item words.now stamp)) 0 (map C.value children.old) }
{
    let k = k.0 as usize;
    if k < children.len() {
        children[k].take_inject(item, *words, stamp);
    }
}

fn lose_one<const WORDS: usize, C: Agent<WORDS>>(
    child: &mut C,
    except: ChildNo,
    item: ItemId,
    stamp: Stamp,
    i: usize,
)
    requires has { item < node_items (C.value child.old) }
    requires room { full_to_hear (LoseOthers except) item i (C.value child.old) ≡ None }
    ensures { C.value child.new ≡ erased_by except item stamp i (C.value child.old) }
{
    if i == except.0 as usize {
        child.take_request();
    } else {
        child.lose(item, stamp);
    }
}

/// Child `c`'s erase was granted, and every other child is told to lose the item.
pub(crate) fn lose_others<const WORDS: usize, C: Agent<WORDS>>(
    children: &mut [C],
    c: ChildNo,
    item: ItemId,
    stamp: Stamp,
)
    requires have { HaveItem item (map C.value children.old) }
    requires room { first_given (full_to_hear (LoseOthers c) item) 0 (map C.value children.old) ≡ None }
    ensures { map C.value children.new ≡ map_from (erased_by c item stamp) 0 (map C.value children.old) }
{
    for i in 0..children.len() {
        lose_one(&mut children[i], c, item, stamp, i);
    }
}

/// Every child is told to lose the item.
pub(crate) fn lose_all<const WORDS: usize, C: Agent<WORDS>>(
    children: &mut [C],
    item: ItemId,
    stamp: Stamp,
)
    requires have { HaveItem item (map C.value children.old) }
    requires room { first_given (full_to_hear LoseAll item) 0 (map C.value children.old) ≡ None }
    ensures { map C.value children.new ≡ map_from (loses item stamp) 0 (map C.value children.old) }
{
    for i in 0..children.len() {
        children[i].lose(item, stamp);
    }
}

fn take_data_as_reader<const WORDS: usize, C: Agent<WORDS>>(
    child: &mut C,
    readers: &Readers,
    item: ItemId,
    words: &Words<WORDS>,
    stamp: Stamp,
    i: usize,
)
    requires words_fit { WORDS < 2 ^ 32 }
    requires few { i < 16 }
    requires has { item < node_items (C.value child.old) }
    requires room { full_to_hear (TakeData readers.now) item i (C.value child.old) ≡ None }
    ensures { C.value child.new ≡ reader_takes (note_of_readers readers.now) item words.now stamp i (C.value child.old) }
{
    if readers.has(i) {
        child.take_data(item, *words, stamp);
    }
}

/// Every reader is told data.
pub(crate) fn take_data<const WORDS: usize, C: Agent<WORDS>>(
    children: &mut [C],
    readers: &Readers,
    item: ItemId,
    words: &Words<WORDS>,
    stamp: Stamp,
)
    requires words_fit { WORDS < 2 ^ 32 }
    requires few { length children.old ≤ 16 }
    requires have { HaveItem item (map C.value children.old) }
    requires room { first_given (full_to_hear (TakeData readers.now) item) 0 (map C.value children.old) ≡ None }
    ensures { map C.value children.new
        ≡ map_from (reader_takes (note_of_readers readers.now) item words.now stamp) 0
        (map C.value children.old) }
{
    for i in 0..children.len() {
        take_data_as_reader(&mut children[i], readers, item, words, stamp, i);
    }
}
