//! The top as the rules of its bus see it.

use crate::TopState;
use crate::of_bus_judging::{ParentFacts, RequestFacts};
use crate::of_ddm_types::ItemId;
use directory::{JudgedParent, down_facts};

// `let _ = &self.count` lets a proof see the fields, and does nothing.
impl<const WORDS: usize> JudgedParent<WORDS> for TopState<WORDS> {
    fn facts(&self, item: ItemId) -> ParentFacts {
        ParentFacts {
            hold: self.kept.hold(item),
            note: self.kept.note(item),
            answering: self.kept.answering(item),
            parked: false,
            queue: down_facts(&self.down, item),
            requests: RequestFacts::none(),
        }
    }

    /// The top keeps no place.
    fn reserved(&self) -> u32 {
        let _ = &self.count;
        0
    }
}
