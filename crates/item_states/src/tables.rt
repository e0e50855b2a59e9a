//! The item states of a leaf, and what becomes of them.

ghost use Rattle.std.specs.Prelude.{◌≡◌};
ghost use Rattle.tree_model.specs.State.States.{entry_hold, state_answered, state_lost, state_with_data};

use crate::of_ddm_types::{Hold, LeafState};

/// The state of an entry whose leaf is told to lose the item. None: no entry is left.
pub fn leaf_lose(s: LeafState) -> Option<LeafState>
    ensures { result ≡ state_lost s }
{
    match s {
        LeafState::Shared | LeafState::Exclusive => None,
        LeafState::Waiting => Some(LeafState::ReadingWaiting),
        LeafState::Reading | LeafState::ReadingWaiting => Some(s),
    }
}

/// The state of an entry whose leaf is told data. None: no such entry is told data.
pub fn leaf_data(s: LeafState) -> Option<LeafState>
    ensures { result ≡ state_with_data s }
{
    match s {
        LeafState::Shared | LeafState::Exclusive | LeafState::Waiting => None,
        LeafState::Reading => Some(LeafState::Shared),
        LeafState::ReadingWaiting => Some(LeafState::Waiting),
    }
}

/// The state of an entry whose leaf is told to answer a read. None: such an entry has no words to answer with.
pub fn leaf_answer(s: LeafState) -> Option<LeafState>
    ensures { result ≡ state_answered s }
{
    match s {
        LeafState::Shared | LeafState::Exclusive => Some(LeafState::Shared),
        LeafState::Waiting => Some(LeafState::Waiting),
        LeafState::Reading | LeafState::ReadingWaiting => None,
    }
}

/// What a leaf holds of an item, by its entry.
pub fn leaf_hold(s: Option<LeafState>) -> Hold
    ensures { result ≡ entry_hold s }
{
    match s {
        Some(LeafState::Shared | LeafState::Waiting) => Hold::Shared,
        Some(LeafState::Exclusive) => Hold::Exclusive,
        Some(LeafState::Reading | LeafState::ReadingWaiting) | None => Hold::Invalid,
    }
}
