//! A directory as a child of the bus above it.

ghost use Rattle.std.specs.Prelude.{◌≡◌, ℕ, ◌+◌, ◌<◌, ◌++◌, ◌∷◌, [], Bool, false, true, not, ◌&&◌, ◌||◌, length};
ghost use Rattle.std.specs.Prelude.{replicate, Option, None, IfSome, is_some, option_map, unwrap_or, if◌then◌else◌};
ghost use Rattle.directory.specs.DdmTypes.declared.answers.TxKind.TheVariants.{ReadTx, DataTx, EraseTx, ExclusiveTx, InjectTx};
ghost use Rattle.directory.specs.TreeModel.State.Lists.{first_of, rest_of};
ghost use Rattle.directory.specs.TreeModel.State.States.{is_held};
ghost use Rattle.directory.specs.TreeModel.State.Values.{DirValue};
ghost use Rattle.directory.specs.TreeModel.State.Child.{dir_full_for};
ghost use Rattle.directory.specs.TreeModel.State.Directory.{dir_hold, dir_waits, dir_room, dir_leaving};
ghost use Rattle.directory.specs.TreeModel.State.Directory.{inject_has_place, open_read, in_down, pending};
ghost use Rattle.directory.specs.TreeModel.State.Directory.{pending_by, down_full, parking_full, parked_words};
ghost use Rattle.directory.specs.TreeModel.State.Directory.{pushed_down, struck, dir_lose, dir_take_data};
ghost use Rattle.directory.specs.TreeModel.State.Directory.{dir_take_exclusive, dir_answer, dir_take_inject};
ghost use Rattle.directory.specs.TreeModel.State.Directory.{dir_give_up};
ghost use Rattle.directory.specs.ItemStates.Parts.{request_pair, copy_pair};

use crate::DirState;
use crate::of_ddm_types::{BusNo, Hold, ItemId, PendingWhy, QueueName, Stamp, TxKind, Words};
use crate::of_item_states::DownEntry;

/// Whether something is held.
fn is_held(hold: Hold) -> bool
    ensures { result ≡ is_held hold }
{
    match hold {
        Hold::Invalid => false,
        Hold::Shared | Hold::Exclusive => true,
    }
}

/// The first reason for which an item is pending: the note, answering, or an entry in the down list.
pub fn pending_by(note: Option<PendingWhy>, answering: bool, queued: bool) -> Option<PendingWhy>
    ensures { result ≡ pending_by note answering queued }
{
    if note.is_some() {
        note
    } else if answering {
        Some(PendingWhy::Answering)
    } else if queued {
        Some(PendingWhy::InDown)
    } else {
        None
    }
}

impl<const WORDS: usize> DirState<WORDS> {
    pub fn up_hold(&self, item: ItemId) -> Hold
        requires { item < length self.now.items }
        ensures { result ≡ dir_hold item self.now }
    {
        self.kept.hold(item)
    }

    pub fn up_waits(&self, item: ItemId) -> bool
        requires { item < length self.now.items }
        ensures { result ≡ dir_waits item self.now }
    {
        self.requests.has_request(TxKind::ReadTx, item)
    }

    /// Whether an entry of the item stands in the down list.
    pub(crate) fn in_down(&self, item: ItemId) -> bool
        requires { item < length self.now.items }
        ensures { result ≡ in_down item self.now }
    {
        self.down.holds_item(item)
    }

    /// Whether its read was granted above, and nothing of the item has come down since.
    fn has_open_read(&self, item: ItemId) -> bool
        requires { item < length self.now.items }
        ensures { result ≡ open_read item self.now }
    {
        self.kept.is_up_read(item) && !self.in_down(item)
    }

    pub fn up_reader_has_place(&self, item: ItemId) -> bool
        requires { item < length self.now.items }
        ensures { result ≡ inject_has_place item self.now }
    {
        self.has_open_read(item) || !self.parking.is_full()
    }

    #[tactic(auto, unfolding(crate::specs::Opened::dir_room))]
    pub fn up_room(&self, item: ItemId) -> bool
        requires { item < length self.now.items }
        ensures { result ≡ dir_room item self.now }
    {
        !self.down.full() && self.up_reader_has_place(item)
    }

    pub fn up_full_for(&self, kind: TxKind, item: ItemId) -> Option<QueueName>
        requires { item < length self.now.items }
        ensures { result ≡ dir_full_for kind item self.now }
    {
        let needs_place = match kind {
            TxKind::ReadTx | TxKind::DataTx | TxKind::ExclusiveTx | TxKind::InjectTx => true,
            TxKind::EraseTx => is_held(self.kept.hold(item)),
            TxKind::OutTx => false,
        };
        if needs_place && self.down.full() {
            Some(QueueName::Down(self.bus))
        } else {
            None
        }
    }

    pub fn up_first_request(&self) -> Option<(TxKind, ItemId)>
        ensures value { result ≡ option_map request_pair (first_of self.now.requests) }
        ensures in_range { IfSome result (λ r. r.1 < length self.now.items) }
    {
        self.requests.first().copied()
    }

    pub fn up_first_reply(&self) -> Option<(ItemId, Words<WORDS>)>
        ensures value { result ≡ option_map copy_pair (first_of self.now.replies) }
        ensures in_range { IfSome result (λ r. r.0 < length self.now.items) }
    {
        self.replies.first().copied()
    }

    pub fn up_leaving(&self, choice: u8) -> Option<ItemId>
        ensures value { result ≡ dir_leaving choice self.now.parked }
        ensures in_range { IfSome result (λ x. x < length self.now.items) }
        ensures there { IfSome result (λ x. is_some (parked_words x self.now) ≡ true) }
    {
        self.parking.ready(choice)
    }

    /// Why the item is pending on the bus below.
    #[tactic(auto, unfolding(crate::specs::Opened::pending))]
    pub(crate) fn why_pending(&self, item: ItemId) -> Option<PendingWhy>
        requires { item < length self.now.items }
        ensures { result ≡ pending item self.now }
    {
        pending_by(
            self.kept.note(item),
            self.kept.answering(item),
            self.in_down(item),
        )
    }

    pub fn up_pending_below(&self, item: ItemId) -> Option<(BusNo, PendingWhy)>
        requires { item < length self.now.items }
        ensures { result ≡ option_map (λ why. (self.now.bus, why)) (pending item self.now) }
    {
        match self.why_pending(item) {
            Some(why) => Some((self.bus, why)),
            None => None,
        }
    }

    pub fn up_take_request(&mut self)
        ensures { self.new ≡ record self.old { requests = rest_of self.old.requests } }
    {
        let _ = self.requests.pop();
    }

    pub fn up_take_reply(&mut self)
        ensures { self.new ≡ record self.old { replies = rest_of self.old.replies } }
    {
        let _ = self.replies.pop();
    }

    /// Puts an entry into the down list.
    fn tell(&mut self, kind: TxKind, item: ItemId, words: Words<WORDS>, stamp: Stamp)
        requires in_range { item < length self.old.items }
        requires room { down_full self.old ≡ false }
        ensures { self.new ≡ pushed_down kind item words.entry stamp self.old }
    {
        self.down.put(DownEntry {
            kind,
            item,
            words,
            stamp,
        });
    }

    /// Puts an entry without words into the down list.
    fn tell_kind(&mut self, kind: TxKind, item: ItemId, stamp: Stamp)
        requires in_range { item < length self.old.items }
        requires room { down_full self.old ≡ false }
        ensures { self.new ≡ pushed_down kind item (replicate self.old.sizes.width 0) stamp self.old }
    {
        self.down.put(DownEntry {
            kind,
            item,
            words: Words { w: [0; WORDS] },
            stamp,
        });
    }

    /// Strikes a request that isn't granted yet.
    fn strike(&mut self, kind: TxKind, item: ItemId)
        requires { item < length self.old.items }
        ensures { self.new ≡ record self.old { requests = struck kind item self.old.requests } }
    {
        let _ = self.requests.remove_request(kind, item);
    }

    pub fn up_lose(&mut self, item: ItemId, stamp: Stamp)
        requires in_range { item < length self.old.items }
        requires room { dir_full_for EraseTx item self.old ≡ None }
        ensures { self.new ≡ dir_lose item stamp self.old }
    {
        if is_held(self.kept.hold(item)) {
            self.kept.set_hold(item, Hold::Invalid);
            self.strike(TxKind::EraseTx, item);
            self.tell_kind(TxKind::EraseTx, item, stamp);
        }
    }

    #[tactic(auto, unfolding(crate::specs::Opened::dir_take_data))]
    pub fn up_take_data(&mut self, item: ItemId, words: Words<WORDS>, stamp: Stamp)
        requires in_range { item < length self.old.items }
        requires room { dir_full_for DataTx item self.old ≡ None }
        ensures { self.new ≡ dir_take_data item words.entry stamp self.old }
    {
        self.kept.set_hold(item, Hold::Shared);
        self.tell(TxKind::DataTx, item, words, stamp);
    }

    #[tactic(auto, unfolding(crate::specs::Opened::dir_take_exclusive))]
    pub fn up_take_exclusive(&mut self, item: ItemId, stamp: Stamp)
        requires in_range { item < length self.old.items }
        requires room { dir_full_for ExclusiveTx item self.old ≡ None }
        ensures { self.new ≡ dir_take_exclusive item stamp self.old }
    {
        self.kept.set_hold(item, Hold::Exclusive);
        self.tell_kind(TxKind::ExclusiveTx, item, stamp);
    }

    #[tactic(auto, unfolding(crate::specs::Opened::dir_answer))]
    pub fn up_answer(&mut self, item: ItemId, stamp: Stamp)
        requires in_range { item < length self.old.items }
        requires room { dir_full_for ReadTx item self.old ≡ None }
        ensures { self.new ≡ dir_answer item stamp self.old }
    {
        self.kept.set_answering(item, true);
        self.tell_kind(TxKind::ReadTx, item, stamp);
    }

    /// Keeps a parking place for an inject.
    fn keep_place(&mut self)
        requires { parking_full self.old ≡ false }
        ensures { self.new ≡ record self.old { reserved = self.old.reserved + 1 } }
    {
        match self.parking.reserve() {
            Ok(()) => {}
            Err(_) => unreachable!(),
        }
    }

    #[tactic(auto, unfolding(crate::specs::Opened::dir_take_inject))]
    pub fn up_take_inject(&mut self, item: ItemId, words: Words<WORDS>, stamp: Stamp)
        requires in_range { item < length self.old.items }
        requires room { dir_full_for InjectTx item self.old ≡ None }
        requires place { inject_has_place item self.old ≡ true }
        ensures { self.new ≡ dir_take_inject item words.entry stamp self.old }
    {
        if !self.has_open_read(item) {
            self.keep_place();
        }
        self.kept.set_hold(item, Hold::Exclusive);
        self.strike(TxKind::ReadTx, item);
        self.tell(TxKind::InjectTx, item, words, stamp);
    }

    pub fn up_give_up(&mut self, item: ItemId) -> Words<WORDS>
        requires in_range { item < length self.old.items }
        requires there { is_some (parked_words item self.old) ≡ true }
        ensures given { result ≡ unwrap_or (parked_words item self.old) [] }
        ensures after { self.new ≡ dir_give_up item self.old }
    {
        self.kept.set_hold(item, Hold::Invalid);
        let blank = Words { w: [0; WORDS] };
        self.parking.remove(item).unwrap_or(blank)
    }
}
