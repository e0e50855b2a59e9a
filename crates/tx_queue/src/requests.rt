//! Requests are taken out of their list.

ghost use Rattle.std.specs.Prelude.{◌≡◌, ◌<◌, ◌≤◌, ◌&&◌, not, length};
ghost use Rattle.std.specs.List.{list_any};
ghost use Rattle.circular_buffer.specs.Buffer.{buffer};
ghost use Rattle.tx_queue.specs.TreeModel.State.Lists.{without_first};
ghost use Rattle.tx_queue.specs.Requests.{found_so_far, is_request, rotated};

use crate::Queue;
use crate::of_ddm_types::{ItemId, TxKind};
use circular_buffer::HeapCircularBuffer;

/// Whether the request is the first one of this kind and item.
fn is_taken(request: &(TxKind, ItemId), kind: TxKind, item: ItemId, found: bool) -> bool
    ensures { result ≡ (not found && is_request kind item request.now) }
{
    !found && kind == request.0 && item == request.1
}

/// Moves the first request to the end, or takes it out.
fn move_round(
    ring: &mut HeapCircularBuffer<(TxKind, ItemId)>,
    kind: TxKind,
    item: ItemId,
    found: bool,
) -> bool
    requires { length ring.old.items ≤ ring.old.capacity }
    ensures found { result ≡ found_so_far (is_request kind item) found ring.old.items }
    ensures rest { ring.new ≡ buffer (rotated (is_request kind item) found ring.old.items) ring.old.capacity }
{
    match ring.pop_front() {
        Some(request) => {
            if is_taken(&request, kind, item, found) {
                return true;
            }
            let _ = ring.push_back(request);
            found
        }
        None => found,
    }
}

/// Takes out the first request of this kind and item, by moving each of the others once round.
fn remove_first(ring: &mut HeapCircularBuffer<(TxKind, ItemId)>, kind: TxKind, item: ItemId) -> bool
    requires { length ring.old.items ≤ ring.old.capacity }
    ensures found { result ≡ list_any (is_request kind item) ring.old.items }
    ensures rest { ring.new ≡ buffer (without_first (is_request kind item) ring.old.items) ring.old.capacity }
{
    let mut found = false;
    'turning: for _moved in 0..ring.len() {
        found = move_round(ring, kind, item, found);
    }
    found
}

impl Queue<(TxKind, ItemId)> {
    /// Whether a request of this kind and item is there.
    pub fn has_request(&self, kind: TxKind, item: ItemId) -> bool
        requires { item < self.now.items }
        ensures { result ≡ list_any (is_request kind item) self.now.list }
    {
        if !self.holds_item(item) {
            return false;
        }
        self.ring
            .iter()
            .any(|request| kind == request.0 && item == request.1)
    }

    /// Takes out the first request of this kind and item. The others stay in their order.
    pub fn remove_request(&mut self, kind: TxKind, item: ItemId) -> bool
        requires { item < self.old.items }
        ensures found { result ≡ list_any (is_request kind item) self.old.list }
        ensures rest { self.new ≡ record self.old { list = without_first (is_request kind item) self.old.list } }
    {
        let found = remove_first(&mut self.ring, kind, item);
        if found {
            self.counts[item.0 as usize] -= 1;
        }
        found
    }
}
