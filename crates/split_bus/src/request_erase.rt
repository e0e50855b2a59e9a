//! The turn Request, for an erase.

ghost use Rattle.std.specs.Prelude.{◌≡◌, ◌<◌, ◌≤◌, ◌^◌, false, length, map, if◌then◌else◌};
ghost use Rattle.split_bus.specs.DdmTypes.declared.answers.TxKind.TheVariants.{EraseTx, ExclusiveTx};
ghost use Rattle.split_bus.specs.TreeModel.State.Lists.{first_given, first_some};
ghost use Rattle.split_bus.specs.TreeModel.State.States.{is_exclusive};
ghost use Rattle.split_bus.specs.TreeModel.State.Leaf.{blank};
ghost use Rattle.split_bus.specs.TreeModel.State.Directory.{dir_hold, down_full, pending, pushed_down, pushed_request, requests_full};
ghost use Rattle.split_bus.specs.TreeModel.Turns.Grant.{outcome_of, unless_full};
ghost use Rattle.split_bus.specs.TreeModel.Turns.Children.{other_full};
ghost use Rattle.split_bus.specs.TreeModel.Turns.RequestErase.{erase_list_full, erase_of_all, request_erase};
ghost use Rattle.split_bus.specs.Outcomes.{HaveItem, IsOutcome, IsReady};

use crate::answers::{full, granted, pending};
use crate::hearers::{Hearers, find_full};
use crate::of_ddm_types::{
    ChildNo, ItemId, PendingWhy, Place, QueueName, Stamp, TurnAnswer, TxKind, Words,
};
use crate::sought::is_exclusive;
use crate::told::lose_others;
use item_states::{Agent, DownEntry, Parent, ParentList};

/// The first list that needs a place and is full.
pub(crate) fn full_to_erase<const WORDS: usize, P: Parent<WORDS>, C: Agent<WORDS>>(
    parent: &P,
    children: &[C],
    above: Stamp,
    c: ChildNo,
    item: ItemId,
    exclusive: bool,
) -> Option<QueueName>
    requires few { length children.now ≤ 16 }
    requires have { HaveItem item (map C.value children.now) }
    ensures { let p = P.state parent.now in
        let ns = map C.value children.now in
        result
        ≡ first_some (first_given (other_full c item) 0 ns) (erase_list_full above c item p ns exclusive) }
{
    match find_full(children, &Hearers::LoseOthers(c), item) {
        Some(list) => Some(list),
        None => {
            if exclusive {
                parent.list_full(ParentList::Down)
            } else {
                parent.list_full(ParentList::Requests)
            }
        }
    }
}

/// Exclusive waits in the parent's own down list, or the erase goes up.
fn send_erase<const WORDS: usize, P: Parent<WORDS>>(
    parent: &mut P,
    above: Stamp,
    item: ItemId,
    exclusive: bool,
)
    requires words_fit { WORDS < 2 ^ 32 }
    requires sized { (P.state parent.old).sizes.width ≡ WORDS }
    requires in_range { item < length (P.state parent.old).items }
    requires room { (if exclusive then down_full (P.state parent.old) else requests_full (P.state parent.old)) ≡ false }
    ensures { let p = P.state parent.old in
        P.state parent.new
        ≡ (if exclusive then pushed_down ExclusiveTx item (blank p.sizes.width) above p
        else pushed_request EraseTx item p) }
{
    if exclusive {
        parent.push_down(DownEntry {
            kind: TxKind::ExclusiveTx,
            item,
            words: Words { w: [0; WORDS] },
            stamp: above,
        });
    } else {
        parent.push_request(TxKind::EraseTx, item);
    }
}

/// Every other child is told to lose the item.
fn erase_of_all<const WORDS: usize, P: Parent<WORDS>, C: Agent<WORDS>>(
    parent: &mut P,
    children: &mut [C],
    above: Stamp,
    c: ChildNo,
    item: ItemId,
) -> TurnAnswer
    requires few { length children.old ≤ 16 }
    requires child { c < length children.old }
    requires ready { IsReady WORDS item (P.state parent.old) (map C.value children.old) }
    ensures { let p = P.state parent.old in
        let ns = map C.value children.old in
        IsOutcome
        (outcome_of p ns (unless_full
        (first_some (first_given (other_full c item) 0 ns)
        (erase_list_full above c item p ns (is_exclusive (dir_hold item p))))
        (erase_of_all above c item p ns))) result (P.state parent.new)
        (map C.value children.new) }
{
    let exclusive = is_exclusive(parent.hold(item));
    if let Some(list) = full_to_erase(parent, children, above, c, item, exclusive) {
        return full(list);
    }
    let stamp = parent.advance(None);
    parent.set_note(item, Some(PendingWhy::UpErase(c)));
    send_erase(parent, above, item, exclusive);
    lose_others(children, c, item, stamp);
    granted(parent, TxKind::EraseTx, item, Place::Child(c), Place::All)
}

/// Child `c` asks to erase all other copies of the item.
pub(crate) fn request_erase<const WORDS: usize, P: Parent<WORDS>, C: Agent<WORDS>>(
    parent: &mut P,
    children: &mut [C],
    above: Stamp,
    c: ChildNo,
    item: ItemId,
) -> TurnAnswer
    requires few { length children.old ≤ 16 }
    requires child { c < length children.old }
    requires ready { IsReady WORDS item (P.state parent.old) (map C.value children.old) }
    ensures { let p = P.state parent.old in
        let ns = map C.value children.old in
        IsOutcome (outcome_of p ns (request_erase above c item p ns (pending item p))) result
        (P.state parent.new) (map C.value children.new) }
{
    match parent.pending(item) {
        Some(why) => pending(parent, item, why),
        None => erase_of_all(parent, children, above, c, item),
    }
}
