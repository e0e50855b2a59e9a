//! What the words of a state say that is one of several: holds, states, kinds, requests.

ghost use Rattle.std.specs.Prelude.{◌≡◌};
ghost use Rattle.film_parts.specs.DdmTypes.declared.answers.TxKind.{TxKind};
ghost use Rattle.film_parts.specs.DdmTypes.declared.sizes.LeafState.{LeafState};
ghost use Rattle.film_parts.specs.TreeModel.State.Kinds.{kind_number};
ghost use Rattle.film_parts.specs.StateWords.Numbers.{state_number};

use crate::of_ddm_types::{LeafState, TxKind};

/// The state whose number it is.
pub(crate) fn state_by(number: u32) -> LeafState
    ensures { (state : LeafState) → number ≡ state_number state → result ≡ state }
{
    match number {
        2 => LeafState::Exclusive,
        3 => LeafState::Waiting,
        4 => LeafState::Reading,
        5 => LeafState::ReadingWaiting,
        _ => LeafState::Shared,
    }
}

/// The kind whose number it is.
pub(crate) fn kind_by(number: u32) -> TxKind
    ensures { (kind : TxKind) → number ≡ kind_number kind → result ≡ kind }
{
    match number {
        2 => TxKind::DataTx,
        3 => TxKind::EraseTx,
        4 => TxKind::ExclusiveTx,
        5 => TxKind::InjectTx,
        6 => TxKind::OutTx,
        _ => TxKind::ReadTx,
    }
}
