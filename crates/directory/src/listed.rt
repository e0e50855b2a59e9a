//! The entries of an item in a list, found by their places.

ghost use Rattle.std.specs.Prelude.{◌≡◌, ◌<◌, ◌^◌, ◌&&◌, IfSome, map, nat_le, slice_get};
ghost use Rattle.directory.specs.TreeModel.State.Directory.{entry_item, queue_kinds, request_kinds};
ghost use Rattle.bus_judging.specs.Parent.{request_facts};
ghost use Rattle.bus_judging.specs.Queue.{facts_of};
ghost use Rattle.directory.specs.DirParts.{request_of};
ghost use Rattle.directory.specs.Listed.{is_of_item};

use crate::gathered::{asked_facts, down_facts, with_entry, with_request};
use crate::of_ddm_types::{ItemId, TxKind};
use crate::of_item_states::DownEntry;
use crate::places::Places;
use bus_judging::{QueueFacts, RequestFacts};
use tx_queue::Queue;

/// Whether an entry of the item stands at this place, which isn't before `least`.
fn stands_next<const WORDS: usize>(
    down: &Queue<DownEntry<WORDS>>,
    item: ItemId,
    least: u64,
    place: u32,
) -> bool
    ensures stands { result ≡ (nat_le least place && is_of_item entry_item item (slice_get down.now.list place)) }
    ensures word { place < 2 ^ 32 }
{
    match down.get(place) {
        Some(entry) => least <= u64::from(place) && item == entry.item,
        None => false,
    }
}

/// What the rules of a bus ask of an item's entries in a down list, where their places are known: as many as name the item, each
/// behind the one before.
fn told_down_facts<const WORDS: usize>(
    down: &Queue<DownEntry<WORDS>>,
    places: &Places,
    item: ItemId,
) -> Option<QueueFacts>
    requires { item < down.now.items }
    ensures { IfSome result (λ facts. facts ≡ facts_of (queue_kinds item down.now.list)) }
{
    let count = down.counts()[item.0 as usize];
    let mut facts = QueueFacts::none();
    let mut least = 0;
    let mut place = places.first(item);
    for _number in 0..count {
        if !stands_next(down, item, least, place) {
            return None;
        }
        with_entry(&mut facts, down, item, place);
        least = u64::from(place) + 1;
        place = places.next(place);
    }
    Some(facts)
}

/// The same, found by a search where the places aren't known.
pub(crate) fn listed_down_facts<const WORDS: usize>(
    down: &Queue<DownEntry<WORDS>>,
    places: &Places,
    item: ItemId,
) -> QueueFacts
    requires { item < down.now.items }
    ensures { result ≡ facts_of (queue_kinds item down.now.list) }
{
    match told_down_facts(down, places, item) {
        Some(facts) => facts,
        None => down_facts(down, item),
    }
}

/// Whether a request of the item stands at this place, which isn't before `least`.
fn asks_next(requests: &Queue<(TxKind, ItemId)>, item: ItemId, least: u64, place: u32) -> bool
    ensures stands { result ≡ (nat_le least place && is_of_item (λ r. r.1) item (slice_get requests.now.list place)) }
    ensures word { place < 2 ^ 32 }
{
    match requests.get(place) {
        Some(request) => least <= u64::from(place) && item == request.1,
        None => false,
    }
}

/// What they ask of its requests, where their places are known.
fn told_asked_facts(
    requests: &Queue<(TxKind, ItemId)>,
    places: &Places,
    item: ItemId,
) -> Option<RequestFacts>
    requires { item < requests.now.items }
    ensures { IfSome result (λ facts. facts ≡ request_facts (request_kinds item (map request_of requests.now.list))) }
{
    let count = requests.counts()[item.0 as usize];
    let mut facts = RequestFacts::none();
    let mut least = 0;
    let mut place = places.first(item);
    for _number in 0..count {
        if !asks_next(requests, item, least, place) {
            return None;
        }
        with_request(&mut facts, requests, item, place);
        least = u64::from(place) + 1;
        place = places.next(place);
    }
    Some(facts)
}

/// The same, found by a search where the places aren't known.
pub(crate) fn listed_asked_facts(
    requests: &Queue<(TxKind, ItemId)>,
    places: &Places,
    item: ItemId,
) -> RequestFacts
    requires { item < requests.now.items }
    ensures { result ≡ request_facts (request_kinds item (map request_of requests.now.list)) }
{
    match told_asked_facts(requests, places, item) {
        Some(facts) => facts,
        None => asked_facts(requests, item),
    }
}
