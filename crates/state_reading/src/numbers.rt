//! States, holds, kinds and halts by their numbers.

ghost use Rattle.std.specs.Prelude.{◌≡◌, ◌≤◌};
ghost use Rattle.state_reading.specs.TreeModel.State.Kinds.{brings_copy};
ghost use Rattle.state_reading.specs.Parts.{halt_of, hold_of, kind_of, state_of};

use crate::of_ddm_types::{HaltCause, Hold, LeafState, TxKind};

/// The state of an entry by its number, 1 to 5.
pub fn state_of(code: u32) -> LeafState
    requires { code ≤ 5 }
    ensures { result ≡ state_of code }
{
    match code {
        2 => LeafState::Exclusive,
        3 => LeafState::Waiting,
        4 => LeafState::Reading,
        5 => LeafState::ReadingWaiting,
        _ => LeafState::Shared,
    }
}

/// What a directory holds of an item by its number, 0 to 2.
pub fn hold_of(code: u32) -> Hold
    requires { code ≤ 2 }
    ensures { result ≡ hold_of code }
{
    match code {
        1 => Hold::Shared,
        2 => Hold::Exclusive,
        _ => Hold::Invalid,
    }
}

/// The kind of a transaction by its number, 1 to 5.
pub fn kind_of(code: u32) -> TxKind
    requires { code ≤ 5 }
    ensures { result ≡ kind_of code }
{
    match code {
        2 => TxKind::DataTx,
        3 => TxKind::EraseTx,
        4 => TxKind::ExclusiveTx,
        5 => TxKind::InjectTx,
        _ => TxKind::ReadTx,
    }
}

/// Why a hart stopped, by its number, 0 to 9, and the number that belongs to it.
pub fn halt_of(code: u32, number: u32) -> Option<HaltCause>
    requires { code ≤ 9 }
    ensures { result ≡ halt_of code number }
{
    match code {
        1 => Some(HaltCause::Exit(number)),
        2 => Some(HaltCause::Illegal(number)),
        3 => Some(HaltCause::Breakpoint),
        4 => Some(HaltCause::UnknownCall(number)),
        5 => Some(HaltCause::MisalignedTarget(number)),
        6 => Some(HaltCause::FetchOutside(number)),
        7 => Some(HaltCause::MisalignedAccess(number)),
        8 => Some(HaltCause::LoadOutside(number)),
        9 => Some(HaltCause::StoreOutside(number)),
        _ => None,
    }
}

/// Whether a transaction of this kind brings a copy down, so that its entry has words.
pub fn brings_copy(kind: TxKind) -> bool
    ensures { result ≡ brings_copy kind }
{
    match kind {
        TxKind::DataTx | TxKind::InjectTx => true,
        TxKind::ReadTx | TxKind::EraseTx | TxKind::ExclusiveTx | TxKind::OutTx => false,
    }
}
