//! What the rules ask of a directory's lists, gathered entry by entry.

ghost use Rattle.std.specs.Prelude.{◌≡◌, ℕ, ◌<◌, ◌++◌, ◌∷◌, [], List, Some, length, map, nat_eq, slice_get, if◌then◌else◌};
ghost use Rattle.directory.specs.DdmTypes.declared.answers.TxKind.{TxKind};
ghost use Rattle.directory.specs.TreeModel.State.Values.{DownValue};
ghost use Rattle.directory.specs.TreeModel.State.Directory.{queue_kinds, request_kinds};
ghost use Rattle.bus_judging.specs.Parent.{request_facts};
ghost use Rattle.bus_judging.specs.Queue.{facts_of};
ghost use Rattle.directory.specs.DirParts.{request_of};

use crate::of_ddm_types::{ItemId, TxKind};
use crate::of_item_states::DownEntry;
use bus_judging::{QueueFacts, RequestFacts};
use tx_queue::Queue;

/// The entry at this place of a down list is gathered, where it is one of the item.
pub(crate) fn with_entry<const WORDS: usize>(
    facts: &mut QueueFacts,
    down: &Queue<DownEntry<WORDS>>,
    item: ItemId,
    place: u32,
)
    requires { place < length down.now.list }
    ensures { (e : DownValue) (q : List TxKind) → slice_get down.now.list place ≡ Some e →
        facts.old ≡ facts_of q → facts.new ≡ facts_of (if nat_eq item e.item then q ++ e.kind ∷ [] else q) }
{
    match down.get(place) {
        Some(entry) if item == entry.item => facts.push(entry.kind),
        _ => {}
    }
}

/// What the rules of a bus ask of an item's entries in a down list.
pub fn down_facts<const WORDS: usize>(down: &Queue<DownEntry<WORDS>>, item: ItemId) -> QueueFacts
    requires { item < down.now.items }
    ensures { result ≡ facts_of (queue_kinds item down.now.list) }
{
    let mut facts = QueueFacts::none();
    if !down.holds_item(item) {
        return facts;
    }
    for place in 0..down.len() {
        with_entry(&mut facts, down, item, place);
    }
    facts
}

/// The request at this place is gathered, where it is one of the item.
pub(crate) fn with_request(
    facts: &mut RequestFacts,
    requests: &Queue<(TxKind, ItemId)>,
    item: ItemId,
    place: u32,
)
    requires { place < length requests.now.list }
    ensures { (r : TxKind × ℕ) (rs : List TxKind) → slice_get requests.now.list place ≡ Some r →
        facts.old ≡ request_facts rs →
        facts.new ≡ request_facts (if nat_eq item r.1 then rs ++ r.0 ∷ [] else rs) }
{
    match requests.get(place) {
        Some(request) if item == request.1 => facts.push(request.0),
        _ => {}
    }
}

/// What they ask of its requests.
pub(crate) fn asked_facts(requests: &Queue<(TxKind, ItemId)>, item: ItemId) -> RequestFacts
    requires { item < requests.now.items }
    ensures { result ≡ request_facts (request_kinds item (map request_of requests.now.list)) }
{
    let mut facts = RequestFacts::none();
    if !requests.holds_item(item) {
        return facts;
    }
    for place in 0..requests.len() {
        with_request(&mut facts, requests, item, place);
    }
    facts
}
