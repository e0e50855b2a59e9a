//! The readers of a note.

ghost use Rattle.std.specs.Prelude.{◌≡◌, ◌<◌, length};
ghost use Rattle.split_bus.specs.TreeModel.State.Directory.{dir_note, is_reader};
ghost use Rattle.split_bus.specs.TreeModel.Turns.Grant.{data_taker};
ghost use Rattle.split_bus.specs.Children.{note_of, note_of_readers};

use crate::of_ddm_types::{ChildNo, ItemId, PendingWhy, Place};
use item_states::Parent;

/// The children that read an item: the one whose read was granted first, and those that joined it, child c where bit c is set.
#[derive(Clone, Copy)]
pub(crate) struct Readers {
    pub(crate) first: ChildNo,
    pub(crate) joined: u16,
}

impl Readers {
    /// Whether this child is one of them.
    pub(crate) fn has(&self, child: usize) -> bool
        requires { child < 16 }
        ensures { result ≡ is_reader (note_of_readers self.now) child }
    {
        child == self.first.0 as usize || self.joined >> child & 1 == 1
    }

    /// Who takes data for them.
    pub(crate) fn taker(&self) -> Place
        ensures { result ≡ data_taker self.now.first self.now.joined }
    {
        if self.joined == 0 {
            Place::Child(self.first)
        } else {
            Place::Readers
        }
    }
}

/// What a bus's parent notes of an item.
#[derive(Clone, Copy)]
pub(crate) enum Noted {
    Nothing,
    /// A child answers a read.
    Local(Readers),
    /// A read was sent up.
    UpRead(Readers),
    /// The child erases all other copies.
    UpErase(ChildNo),
}

impl Noted {
    pub(crate) fn of<const WORDS: usize, P: Parent<WORDS>>(parent: &P, item: ItemId) -> Self
        requires { item < length (P.state parent.now).items }
        ensures { note_of result ≡ dir_note item (P.state parent.now) }
    {
        let joined = parent.joined(item);
        match &parent.note(item) {
            Some(PendingWhy::Local(first)) => Noted::Local(Readers {
                first: *first,
                joined,
            }),
            Some(PendingWhy::UpRead(first)) => Noted::UpRead(Readers {
                first: *first,
                joined,
            }),
            Some(PendingWhy::UpErase(child)) => Noted::UpErase(*child),
            Some(PendingWhy::Answering | PendingWhy::InDown) | None => Noted::Nothing,
        }
    }
}
