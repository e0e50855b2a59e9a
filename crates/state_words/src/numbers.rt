//! The numbers of states, holds, kinds, halts and effects.

ghost use Rattle.std.specs.Prelude.{◌≡◌, ◌+◌, ◌<◌, ◌^◌, IfSome};
ghost use Rattle.state_words.specs.TreeModel.State.Kinds.{kind_number};
ghost use Rattle.state_words.specs.Numbers.{effect_words, flag_number, halt_words, hold_number, key_words};
ghost use Rattle.state_words.specs.Numbers.{reserved_word, slot_number, stamp_words, state_number};
ghost use Rattle.state_words.specs.Parts.{traffic_words};

use crate::of_ddm_types::{Effect, HaltCause, Hold, ItemId, Key, LeafState, Stamp, TxKind};
use crate::of_tree_model::Traffic;

pub fn kind_number(kind: TxKind) -> u32
    ensures { result ≡ kind_number kind }
{
    match kind {
        TxKind::ReadTx => 1,
        TxKind::DataTx => 2,
        TxKind::EraseTx => 3,
        TxKind::ExclusiveTx => 4,
        TxKind::InjectTx => 5,
        TxKind::OutTx => 6,
    }
}

pub fn hold_number(hold: Hold) -> u32
    ensures { result ≡ hold_number hold }
{
    match hold {
        Hold::Invalid => 0,
        Hold::Shared => 1,
        Hold::Exclusive => 2,
    }
}

pub fn flag_number(flag: bool) -> u32
    ensures { result ≡ flag_number flag }
{
    if flag { 1 } else { 0 }
}

pub fn state_number(state: LeafState) -> u32
    ensures { result ≡ state_number state }
{
    match state {
        LeafState::Shared => 1,
        LeafState::Exclusive => 2,
        LeafState::Waiting => 3,
        LeafState::Reading => 4,
        LeafState::ReadingWaiting => 5,
    }
}

/// The number of what a slot asks for.
pub fn slot_number(kind: TxKind) -> u32
    ensures { result ≡ slot_number kind }
{
    match kind {
        TxKind::ReadTx => 1,
        TxKind::EraseTx => 2,
        TxKind::DataTx | TxKind::ExclusiveTx | TxKind::InjectTx | TxKind::OutTx => 0,
    }
}

/// The item that a hart has reserved, plus 1; 0 for none.
pub fn reserved_word(item: Option<ItemId>) -> u32
    requires { IfSome item (λ x. x + 1 < 2 ^ 32) }
    ensures { result ≡ reserved_word item }
{
    match item {
        Some(item) => item.0 + 1,
        None => 0,
    }
}

/// Why a hart stopped, if it did, and the number that belongs to it.
pub fn halt_words(halt: Option<HaltCause>) -> [u32; 2]
    ensures { result ≡ halt_words halt }
{
    match halt {
        None => [0, 0],
        Some(HaltCause::Exit(value)) => [1, value],
        Some(HaltCause::Illegal(word)) => [2, word],
        Some(HaltCause::Breakpoint) => [3, 0],
        Some(HaltCause::UnknownCall(number)) => [4, number],
        Some(HaltCause::MisalignedTarget(address)) => [5, address],
        Some(HaltCause::FetchOutside(address)) => [6, address],
        Some(HaltCause::MisalignedAccess(address)) => [7, address],
        Some(HaltCause::LoadOutside(address)) => [8, address],
        Some(HaltCause::StoreOutside(address)) => [9, address],
    }
}

/// What an instruction did, and three numbers: those that belong to it, in order, and 0 for the rest.
pub fn effect_words(effect: Effect) -> [u32; 4]
    ensures { result ≡ effect_words effect }
{
    match effect {
        Effect::Plain => [0, 0, 0, 0],
        Effect::Put { byte } => [1, u32::from(byte), 0, 0],
        Effect::Load { address, word } => [2, address, word, 0],
        Effect::Store {
            address,
            before,
            after,
        } => [3, address, before, after],
        Effect::Lr { address, word } => [4, address, word, 0],
        Effect::ScOk {
            address,
            before,
            after,
        } => [5, address, before, after],
        Effect::ScFail { address } => [6, address, 0, 0],
        Effect::Amo {
            address,
            before,
            after,
        } => [7, address, before, after],
    }
}

pub fn stamp_words(stamp: Stamp) -> [u32; 4]
    ensures { result ≡ stamp_words stamp }
{
    [stamp.s0, stamp.s1, stamp.s2, stamp.s3]
}

pub fn key_words(key: Key) -> [u32; 9]
    ensures { result ≡ key_words key }
{
    [
        key.s0, key.c0, key.s1, key.c1, key.s2, key.c2, key.s3, key.c3, key.i,
    ]
}

/// How many transactions of each kind a bus has granted.
pub fn traffic_words(traffic: Traffic) -> [u32; 6]
    ensures { result ≡ traffic_words traffic }
{
    [
        traffic.reads,
        traffic.copies,
        traffic.erases,
        traffic.exclusives,
        traffic.outs,
        traffic.injects,
    ]
}
