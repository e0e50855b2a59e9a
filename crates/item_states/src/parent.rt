//! What a bus sees of its parent, and tells it.

ghost use Rattle.std.specs.Prelude.{◌≡◌, ◌+◌, ◌<◌, ◌^◌, false, ◌++◌, ◌∷◌, [], length, nat_eq, nat_lt, IfSome, if◌then◌else◌};
ghost use Rattle.item_states.specs.DdmTypes.declared.sizes.Hold.TheVariants.{Shared};
ghost use Rattle.tree_model.specs.State.Values.{DirValue};
ghost use Rattle.tree_model.specs.State.Lists.{first_of, rest_of};
ghost use Rattle.tree_model.specs.State.Directory.{is_top, dir_hold, dir_note, is_answering, with_hold, with_note};
ghost use Rattle.tree_model.specs.State.Directory.{with_answering, joined_by, note_why, down_full, requests_full};
ghost use Rattle.tree_model.specs.State.Directory.{replies_full, parking_full, parked_words, is_parked};
ghost use Rattle.tree_model.specs.State.Directory.{pushed_request, pushed_reply, with_parked, without_parked};
ghost use Rattle.tree_model.specs.State.Directory.{place_released, pending, stamp_of};
ghost use Rattle.item_states.specs.Parts.{note_of, joined_in, own_list_full, advanced, NamesChild, CanPark, TakesOver};

use crate::DownEntry;
use crate::of_ddm_types::{
    BusNo, ChildNo, Hold, ItemId, PendingWhy, QueueName, Stamp, TxKind, Words,
};

/// The lists of a bus's parent.
#[derive(Clone, Copy, Debug, PartialEq, Eq)]
pub enum ParentList {
    Down,
    Requests,
    Replies,
}

/// The face of a bus's parent to that bus, by the parent's own state.
pub trait Parent<const WORDS: usize> {
    ghost state: { Self → DirValue };

    /// The bus; the top's is 0, and no other.
    fn bus(&self) -> BusNo
        ensures value { result ≡ (state self.now).bus }
        ensures top { nat_eq result 0 ≡ is_top (state self.now) };

    /// The present stamp of the bus.
    fn stamp(&self) -> Stamp
        ensures { result ≡ stamp_of (state self.now) };

    fn hold(&self, item: ItemId) -> Hold
        requires { item < length (state self.now).items }
        ensures { result ≡ dir_hold item (state self.now) };

    /// The note: Local, UpRead or UpErase, with the child whose request was granted first.
    fn note(&self, item: ItemId) -> Option<PendingWhy>
        requires { item < length (state self.now).items }
        ensures { result ≡ note_why (dir_note item (state self.now)) };

    /// The children that joined the note's read: child c where bit c is set.
    fn joined(&self, item: ItemId) -> u16
        requires { item < length (state self.now).items }
        ensures { result ≡ joined_in (dir_note item (state self.now)) };

    fn answering(&self, item: ItemId) -> bool
        requires { item < length (state self.now).items }
        ensures { result ≡ is_answering item (state self.now) };

    fn pending(&self, item: ItemId) -> Option<PendingWhy>
        requires { item < length (state self.now).items }
        ensures { result ≡ pending item (state self.now) };

    fn first_down(&self) -> Option<DownEntry<WORDS>>
        ensures value { result ≡ first_of (state self.now).down }
        ensures in_range { IfSome result (λ e. e.item < length (state self.now).items) };

    fn parked(&self, item: ItemId) -> Option<Words<WORDS>>
        requires { item < length (state self.now).items }
        ensures { result ≡ parked_words item (state self.now) };

    fn list_full(&self, which: ParentList) -> Option<QueueName>
        ensures { result ≡ own_list_full which (state self.now) };

    /// Whether parking has no place that is neither taken nor kept.
    fn parking_full(&self) -> bool
        ensures { result ≡ parking_full (state self.now) };

    /// Whether a parking place is kept for an inject.
    fn keeps_place(&self) -> bool
        ensures { result ≡ nat_lt 0 (state self.now).reserved };

    /// Sets a note with nobody joined, or ends it.
    fn set_note(&mut self, item: ItemId, note: Option<PendingWhy>)
        requires in_range { item < length (state self.old).items }
        requires child { NamesChild (note_of note) }
        ensures { state self.new ≡ with_note item (note_of note) (state self.old) };

    /// One more child joins the read that is noted.
    fn join(&mut self, item: ItemId, child: ChildNo)
        requires in_range { item < length (state self.old).items }
        requires child { child < 16 }
        ensures { state self.new ≡ with_note item (joined_by child (dir_note item (state self.old))) (state self.old) };

    fn pop_down(&mut self)
        ensures { state self.new ≡ record (state self.old) { down = rest_of (state self.old).down } };

    fn push_down(&mut self, entry: DownEntry<WORDS>)
        requires in_range { entry.item < length (state self.old).items }
        requires room { down_full (state self.old) ≡ false }
        ensures { state self.new ≡ record (state self.old) { down = (state self.old).down ++ entry.entry ∷ [] } };

    fn push_request(&mut self, kind: TxKind, item: ItemId)
        requires in_range { item < length (state self.old).items }
        requires room { requests_full (state self.old) ≡ false }
        ensures { state self.new ≡ pushed_request kind item (state self.old) };

    fn push_reply(&mut self, item: ItemId, words: Words<WORDS>)
        requires in_range { item < length (state self.old).items }
        requires room { replies_full (state self.old) ≡ false }
        ensures { state self.new ≡ pushed_reply item words.entry (state self.old) };

    /// Data went up: it holds the item Shared and is answering no more.
    fn end_answering(&mut self, item: ItemId)
        requires in_range { item < length (state self.old).items }
        requires room { replies_full (state self.old) ≡ false }
        ensures { state self.new ≡ with_answering item false (with_hold item Shared (state self.old)) };

    /// Parks a copy, in a place that was kept or in a free one.
    fn park(&mut self, item: ItemId, words: Words<WORDS>, kept: bool)
        requires in_range { item < length (state self.old).items }
        requires once { is_parked item (state self.old) ≡ false }
        requires place { CanPark kept (state self.old) }
        ensures { state self.new ≡ with_parked item words.entry (if kept then place_released (state self.old) else state self.old) };

    /// Takes a copy out of parking.
    fn unpark(&mut self, item: ItemId)
        requires in_range { item < length (state self.old).items }
        ensures { state self.new ≡ without_parked item (state self.old) };

    /// A place that was kept is kept no more.
    fn release_place(&mut self)
        ensures { state self.new ≡ place_released (state self.old) };

    /// The bus takes over a stamp, if one is given, and counts one grant more. Gives its new stamp.
    fn advance(&mut self, epoch: Option<Stamp>) -> Stamp
        requires count { (state self.old).count + 1 < 2 ^ 32 }
        requires below { TakesOver epoch (state self.old) }
        ensures after { state self.new ≡ advanced epoch (state self.old) }
        ensures stamp { result ≡ stamp_of (state self.new) };
}
