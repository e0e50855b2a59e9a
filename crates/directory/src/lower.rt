//! A directory as the parent of the bus below it.

ghost use Rattle.std.specs.Prelude.{◌≡◌, ◌+◌, ◌<◌, ◌^◌, ◌++◌, ◌∷◌, [], false, nat_eq, nat_le, length, if◌then◌else◌};
ghost use Rattle.directory.specs.TreeModel.State.Values.{DirValue};
ghost use Rattle.directory.specs.TreeModel.State.Directory.{down_full, replies_full, is_parked, pushed_reply, with_parked, place_released};
ghost use Rattle.directory.specs.ItemStates.Parts.{CanPark};

use crate::DirState;
use crate::of_ddm_types::{
    BusNo, ChildNo, Hold, ItemId, PendingWhy, QueueName, Stamp, TxKind, Words,
};
use crate::of_item_states::{DownEntry, Parent, ParentList};

impl<const WORDS: usize> Parent<WORDS> for DirState<WORDS> {
    ghost state = { λ d. d };

    fn bus(&self) -> BusNo {
        self.bus
    }

    fn stamp(&self) -> Stamp {
        self.epoch.at_level(self.level, self.count)
    }

    fn hold(&self, item: ItemId) -> Hold {
        self.kept.hold(item)
    }

    fn note(&self, item: ItemId) -> Option<PendingWhy> {
        self.kept.note(item)
    }

    fn joined(&self, item: ItemId) -> u16 {
        self.kept.joined(item)
    }

    fn answering(&self, item: ItemId) -> bool {
        self.kept.answering(item)
    }

    fn pending(&self, item: ItemId) -> Option<PendingWhy> {
        self.why_pending(item)
    }

    fn first_down(&self) -> Option<DownEntry<WORDS>> {
        self.down.first().copied()
    }

    fn parked(&self, item: ItemId) -> Option<Words<WORDS>> {
        self.parking.words(item)
    }

    fn list_full(&self, which: ParentList) -> Option<QueueName> {
        let (full, name) = match which {
            ParentList::Down => (self.down.full(), QueueName::Down(self.bus)),
            ParentList::Requests => (self.requests.full(), QueueName::Requests(self.bus)),
            ParentList::Replies => (self.replies.full(), QueueName::Replies(self.bus)),
        };
        if full { Some(name) } else { None }
    }

    fn parking_full(&self) -> bool {
        self.parking.is_full()
    }

    fn keeps_place(&self) -> bool {
        self.parking.reserved() > 0
    }

    fn set_note(&mut self, item: ItemId, note: Option<PendingWhy>) {
        self.kept.set_note(item, note);
    }

    fn join(&mut self, item: ItemId, child: ChildNo) {
        self.kept.join(item, child);
    }

    fn pop_down(&mut self) {
        let _ = self.down.pop();
    }

    fn push_down(&mut self, entry: DownEntry<WORDS>)
        requires in_range { entry.item < length self.old.items }
        requires room { down_full self.old ≡ false }
        ensures { self.new ≡ record self.old { down = self.old.down ++ entry.entry ∷ [] } }
    {
        self.down.put(entry);
    }

    fn push_request(&mut self, kind: TxKind, item: ItemId) {
        self.requests.put((kind, item));
    }

    fn push_reply(&mut self, item: ItemId, words: Words<WORDS>)
        requires in_range { item < length self.old.items }
        requires room { replies_full self.old ≡ false }
        ensures { self.new ≡ pushed_reply item words.entry self.old }
    {
        self.replies.put((item, words));
    }

    fn end_answering(&mut self, item: ItemId) {
        self.kept.set_hold(item, Hold::Shared);
        self.kept.set_answering(item, false);
    }

    fn park(&mut self, item: ItemId, words: Words<WORDS>, kept: bool)
        requires in_range { item < length self.old.items }
        requires once { is_parked item self.old ≡ false }
        requires place { CanPark kept self.old }
        ensures { self.new ≡ with_parked item words.entry (if kept then place_released self.old else self.old) }
    {
        if kept {
            self.parking.put_reserved(item, words);
        } else {
            match self.parking.put(item, words) {
                Ok(()) => {}
                Err(_) => unreachable!(),
            }
        }
    }

    fn unpark(&mut self, item: ItemId) {
        let _ = self.parking.remove(item);
    }

    fn release_place(&mut self) {
        if self.parking.reserved() > 0 {
            self.parking.release();
        }
    }

    fn advance(&mut self, epoch: Option<Stamp>) -> Stamp {
        if let Some(stamp) = epoch {
            self.epoch = stamp;
        }
        self.count += 1;
        self.stamp()
    }
}
