//! What a leaf asks for, by the state of an entry.

ghost use Rattle.std.specs.Prelude.{◌≡◌, option_map};
ghost use Rattle.leaf_protocol.specs.TreeModel.State.States.{asked_when_lost, asked_with_data, state_with_exclusive, state_with_inject};
ghost use Rattle.leaf_protocol.specs.DdmTypes.declared.answers.TxKind.TheVariants.{ReadTx};
ghost use Rattle.leaf_protocol.specs.TreeModel.State.Leaf.{slot_has};
ghost use Rattle.leaf_protocol.specs.Leaf.{request_value, slot_asked, slot_read_struck};

use crate::of_ddm_types::{ItemId, LeafState, TxKind};

/// What a leaf asks for that is told to lose an item whose entry is in this state.
pub fn asked_when_lost(state: LeafState) -> Option<TxKind>
    ensures { result ≡ asked_when_lost state }
{
    match state {
        LeafState::Waiting => Some(TxKind::ReadTx),
        LeafState::Shared | LeafState::Exclusive | LeafState::Reading | LeafState::ReadingWaiting =>
            None,
    }
}

/// What a leaf asks for that is told data.
pub fn asked_with_data(state: LeafState) -> Option<TxKind>
    ensures { result ≡ asked_with_data state }
{
    match state {
        LeafState::ReadingWaiting => Some(TxKind::EraseTx),
        LeafState::Shared | LeafState::Exclusive | LeafState::Waiting | LeafState::Reading => None,
    }
}

/// The state of an entry whose leaf is told exclusive. None: no such entry is told it.
pub fn leaf_exclusive(state: LeafState) -> Option<LeafState>
    ensures { result ≡ state_with_exclusive state }
{
    match state {
        LeafState::Waiting => Some(LeafState::Exclusive),
        LeafState::Shared | LeafState::Exclusive | LeafState::Reading | LeafState::ReadingWaiting =>
            None,
    }
}

/// The state of an entry whose leaf is told inject. None: no such entry takes the copy.
pub fn leaf_inject(state: LeafState) -> Option<LeafState>
    ensures { result ≡ state_with_inject state }
{
    match state {
        LeafState::Reading | LeafState::ReadingWaiting => Some(LeafState::Exclusive),
        LeafState::Shared | LeafState::Exclusive | LeafState::Waiting => None,
    }
}

/// The slot, where this is asked for.
pub fn slot_asked(
    asked: Option<TxKind>,
    item: ItemId,
    slot: Option<(TxKind, ItemId)>,
) -> Option<(TxKind, ItemId)>
    ensures { result ≡ slot_asked asked item slot }
{
    match asked {
        Some(kind) => Some((kind, item)),
        None => slot,
    }
}

/// Whether the slot asks to read the item.
pub fn asks_to_read(item: ItemId, slot: Option<(TxKind, ItemId)>) -> bool
    ensures { result ≡ slot_has ReadTx item (option_map request_value slot) }
{
    match slot {
        Some((TxKind::ReadTx, asked)) => asked.0 == item.0,
        _ => false,
    }
}

/// The slot without a read of the item.
pub fn slot_struck(item: ItemId, slot: Option<(TxKind, ItemId)>) -> Option<(TxKind, ItemId)>
    ensures { result ≡ slot_read_struck item slot }
{
    let Some((kind, asked)) = slot else {
        return None;
    };
    match kind {
        TxKind::ReadTx if asked.0 == item.0 => None,
        _ => Some((kind, asked)),
    }
}
