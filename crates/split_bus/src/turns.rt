//! A turn of one bus.

ghost use Rattle.std.specs.Prelude.{◌≡◌, ◌+◌, ◌<◌, ◌≤◌, ◌^◌, IfSome, length, map, option_map, true};
ghost use Rattle.split_bus.specs.DdmTypes.declared.keys.Stamp.{Stamp};
ghost use Rattle.split_bus.specs.TreeModel.State.Child.{child_leaving, child_reply, child_request};
ghost use Rattle.split_bus.specs.TreeModel.Turns.Grant.{outcome_of};
ghost use Rattle.split_bus.specs.TreeModel.Turns.Children.{child_at};
ghost use Rattle.split_bus.specs.TreeModel.Turns.Bus.{bus_step, leave_turn, reply_turn, request_turn};
ghost use Rattle.item_states.specs.Parts.{copy_pair, has_given, request_pair};
ghost use Rattle.busy_laws.specs.Reasons.{bus_reason, busy_cause};
ghost use Rattle.split_bus.specs.Outcomes.{AreSized, IsOutcome, IsReady, NamesOneOf};
ghost use Rattle.split_bus.specs.StaysRuled.{StaysRuled};

use crate::down::down;
use crate::leave::leave;
use crate::of_ddm_types::{ChildNo, ItemId, Stamp, TurnAnswer, TxKind, Words};
use crate::of_tree_model::BusTurn;
use crate::reply::reply;
use crate::request_erase::request_erase;
use crate::request_read::request_read;
use item_states::{Agent, Parent};

/// The request of child `c`.
fn request_of<const WORDS: usize, P: Parent<WORDS>, C: Agent<WORDS>>(
    parent: &P,
    children: &[C],
    c: ChildNo,
) -> Option<(TxKind, ItemId)>
    requires words_fit { WORDS < 2 ^ 32 }
    requires width { (P.state parent.now).sizes.width ≡ WORDS }
    requires count { (P.state parent.now).count + 1 < 2 ^ 32 }
    requires child { c < length children.now }
    requires sized { AreSized (P.state parent.now) (map C.value children.now) }
    ensures value { result ≡ option_map request_pair (child_request (child_at c (map C.value children.now))) }
    ensures ready { IfSome result (λ r. IsReady WORDS r.1 (P.state parent.now) (map C.value children.now)) }
{
    children[c.0 as usize].first_request()
}

/// The reply of child `c`.
fn reply_of<const WORDS: usize, P: Parent<WORDS>, C: Agent<WORDS>>(
    parent: &P,
    children: &[C],
    c: ChildNo,
) -> Option<(ItemId, Words<WORDS>)>
    requires words_fit { WORDS < 2 ^ 32 }
    requires width { (P.state parent.now).sizes.width ≡ WORDS }
    requires count { (P.state parent.now).count + 1 < 2 ^ 32 }
    requires child { c < length children.now }
    requires sized { AreSized (P.state parent.now) (map C.value children.now) }
    ensures value { result ≡ option_map copy_pair (child_reply (child_at c (map C.value children.now))) }
    ensures ready { IfSome result (λ r. IsReady WORDS r.0 (P.state parent.now) (map C.value children.now)) }
{
    children[c.0 as usize].first_reply()
}

/// The item of the copy that leaves child `c` at this choice.
fn leaving_of<const WORDS: usize, P: Parent<WORDS>, C: Agent<WORDS>>(
    parent: &P,
    children: &[C],
    c: ChildNo,
    choice: u8,
) -> Option<ItemId>
    requires words_fit { WORDS < 2 ^ 32 }
    requires width { (P.state parent.now).sizes.width ≡ WORDS }
    requires count { (P.state parent.now).count + 1 < 2 ^ 32 }
    requires child { c < length children.now }
    requires sized { AreSized (P.state parent.now) (map C.value children.now) }
    ensures value { result ≡ child_leaving choice (child_at c (map C.value children.now)) }
    ensures ready { IfSome result (λ x. IsReady WORDS x (P.state parent.now) (map C.value children.now)) }
    ensures there { IfSome result (λ x. has_given x (child_at c (map C.value children.now)) ≡ true) }
{
    children[c.0 as usize].leaving(choice)
}

/// Child `c`'s request is a read or an erase.
fn request_turn<const WORDS: usize, P: Parent<WORDS>, C: Agent<WORDS>>(
    parent: &mut P,
    children: &mut [C],
    above: Stamp,
    c: ChildNo,
    answer: &mut TurnAnswer,
)
    requires words_fit { WORDS < 2 ^ 32 }
    requires width { (P.state parent.old).sizes.width ≡ WORDS }
    requires count { (P.state parent.old).count + 1 < 2 ^ 32 }
    requires few { length children.old ≤ 16 }
    requires child { c < length children.old }
    requires sized { AreSized (P.state parent.old) (map C.value children.old) }
    ensures { let p = P.state parent.old in
        let ns = map C.value children.old in
        IsOutcome (outcome_of p ns (request_turn above p ns c (child_request (child_at c ns)))) answer.new
        (P.state parent.new) (map C.value children.new) }
{
    match request_of(parent, children, c) {
        Some((TxKind::ReadTx, item)) => {
            *answer = request_read(parent, children, above, c, item);
        }
        Some((TxKind::EraseTx, item)) => {
            *answer = request_erase(parent, children, above, c, item);
        }
        Some(_) | None => *answer = TurnAnswer::Empty,
    }
}

/// Child `c`'s reply.
fn reply_turn<const WORDS: usize, P: Parent<WORDS>, C: Agent<WORDS>>(
    parent: &mut P,
    children: &mut [C],
    c: ChildNo,
    answer: &mut TurnAnswer,
)
    requires words_fit { WORDS < 2 ^ 32 }
    requires width { (P.state parent.old).sizes.width ≡ WORDS }
    requires count { (P.state parent.old).count + 1 < 2 ^ 32 }
    requires few { length children.old ≤ 16 }
    requires child { c < length children.old }
    requires sized { AreSized (P.state parent.old) (map C.value children.old) }
    ensures { (above : Stamp) →
        let p = P.state parent.old in
        let ns = map C.value children.old in
        IsOutcome (outcome_of p ns (reply_turn above p ns c (child_reply (child_at c ns)))) answer.new
        (P.state parent.new) (map C.value children.new) }
{
    match reply_of(parent, children, c) {
        Some((item, words)) => *answer = reply(parent, children, c, item, &words),
        None => *answer = TurnAnswer::Empty,
    }
}

/// A copy leaves child `c`.
fn leave_turn<const WORDS: usize, P: Parent<WORDS>, C: Agent<WORDS>>(
    parent: &mut P,
    children: &mut [C],
    c: ChildNo,
    choice: u8,
    answer: &mut TurnAnswer,
)
    requires words_fit { WORDS < 2 ^ 32 }
    requires width { (P.state parent.old).sizes.width ≡ WORDS }
    requires count { (P.state parent.old).count + 1 < 2 ^ 32 }
    requires few { length children.old ≤ 16 }
    requires child { c < length children.old }
    requires sized { AreSized (P.state parent.old) (map C.value children.old) }
    ensures { (above : Stamp) →
        let p = P.state parent.old in
        let ns = map C.value children.old in
        IsOutcome (outcome_of p ns (leave_turn above p ns c (child_leaving choice (child_at c ns))))
        answer.new (P.state parent.new) (map C.value children.new) }
{
    match leaving_of(parent, children, c, choice) {
        Some(item) => *answer = leave(parent, children, c, item),
        None => *answer = TurnAnswer::Empty,
    }
}

/// One turn of one bus, whose answer is put where the caller wants it: a copy of an answer costs more than a turn that finds nothing.
/// `above` is the present stamp of the bus above.
pub fn grant_into<const WORDS: usize, P: Parent<WORDS>, C: Agent<WORDS>>(
    parent: &mut P,
    children: &mut [C],
    above: Stamp,
    turn: BusTurn,
    answer: &mut TurnAnswer,
)
    requires words_fit { WORDS < 2 ^ 32 }
    requires width { (P.state parent.old).sizes.width ≡ WORDS }
    requires count { (P.state parent.old).count + 1 < 2 ^ 32 }
    requires few { length children.old ≤ 16 }
    requires child { NamesOneOf (length children.old) turn }
    requires sized { AreSized (P.state parent.old) (map C.value children.old) }
    ensures { IsOutcome (bus_step above turn (P.state parent.old) (map C.value children.old)) answer.new
        (P.state parent.new) (map C.value children.new) }
{
    match turn {
        BusTurn::Down => down(parent, children, answer),
        BusTurn::Request(c) => request_turn(parent, children, above, c, answer),
        BusTurn::Reply(c) => reply_turn(parent, children, c, answer),
        BusTurn::Leave(c, choice) => leave_turn(parent, children, c, choice, answer),
    }
}

/// One turn of one bus, busy exactly for the first of its reasons. `above` is the present stamp of the bus above.
pub fn grant<const WORDS: usize, P: Parent<WORDS>, C: Agent<WORDS>>(
    parent: &mut P,
    children: &mut [C],
    above: Stamp,
    turn: BusTurn,
) -> TurnAnswer
    requires words_fit { WORDS < 2 ^ 32 }
    requires width { (P.state parent.old).sizes.width ≡ WORDS }
    requires count { (P.state parent.old).count + 1 < 2 ^ 32 }
    requires few { length children.old ≤ 16 }
    requires child { NamesOneOf (length children.old) turn }
    requires sized { AreSized (P.state parent.old) (map C.value children.old) }
    ensures outcome { IsOutcome (bus_step above turn (P.state parent.old) (map C.value children.old)) result
        (P.state parent.new) (map C.value children.new) }
    ensures rules { StaysRuled above (P.state parent.old) (map C.value children.old) result (P.state parent.new)
        (map C.value children.new) }
    ensures busy { busy_cause result ≡ bus_reason (P.state parent.old) (map C.value children.old) turn }
{
    let mut answer = TurnAnswer::Empty;
    grant_into(parent, children, above, turn, &mut answer);
    answer
}
