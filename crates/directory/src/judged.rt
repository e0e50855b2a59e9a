//! A parent as the rules of its bus see it.

ghost use Rattle.std.specs.Prelude.{◌≡◌, ◌<◌, length};
ghost use Rattle.directory.specs.TreeModel.State.Leaf.{words_of_item};
ghost use Rattle.directory.specs.TreeRules.Bus.Faces.{face_above, parent_face};
ghost use Rattle.bus_judging.specs.Parent.{facts_at};

use crate::DirState;
use crate::listed::{listed_asked_facts, listed_down_facts};
use crate::of_ddm_types::ItemId;
use crate::of_item_states::Parent;
use bus_judging::{ChildFace, ParentFacts};

/// A bus's parent as the rules of that bus see it.
pub trait JudgedParent<const WORDS: usize>: Parent<WORDS> {
    /// What the rules ask of it, of one item.
    fn facts(&self, item: ItemId) -> ParentFacts
        requires { item < length (Self.state self.now).items }
        ensures { result ≡ facts_at (parent_face item (Self.state self.now)) };

    /// How many places in parking are kept for injects.
    fn reserved(&self) -> u32
        ensures { result ≡ (Self.state self.now).reserved };
}

impl<const WORDS: usize> JudgedParent<WORDS> for DirState<WORDS> {
    fn facts(&self, item: ItemId) -> ParentFacts {
        ParentFacts {
            hold: self.kept.hold(item),
            note: self.kept.note(item),
            answering: self.kept.answering(item),
            parked: self.parked(item).is_some(),
            queue: listed_down_facts(&self.down, &self.down_places, item),
            requests: listed_asked_facts(&self.requests, &self.request_places, item),
        }
    }

    fn reserved(&self) -> u32 {
        self.parking.reserved()
    }
}

impl<const WORDS: usize> DirState<WORDS> {
    /// How many replies of the item it has.
    fn reply_count(&self, item: ItemId) -> u32
        requires { item < length self.now.items }
        ensures { result ≡ length (words_of_item item self.now.replies) }
    {
        self.replies.counts()[item.0 as usize]
    }

    /// What the bus above sees of it, of this item.
    pub fn face(&self, item: ItemId) -> ChildFace
        requires { item < length self.now.items }
        ensures { result ≡ face_above (parent_face item self.now) (length (words_of_item item self.now.replies)) }
    {
        self.facts(item).face(self.reply_count(item))
    }
}
