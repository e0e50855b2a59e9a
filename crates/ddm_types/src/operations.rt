//! What a completed instruction was and did.

use crate::keys::Key;
use crate::numbers::HartNo;

/// What a completed instruction did. The address is that of the aligned word.
#[derive(Clone, Copy, Debug, PartialEq, Eq)]
pub enum Effect {
    Plain,
    Put {
        byte: u8,
    },
    Load {
        address: u32,
        word: u32,
    },
    Store {
        address: u32,
        before: u32,
        after: u32,
    },
    Lr {
        address: u32,
        word: u32,
    },
    ScOk {
        address: u32,
        before: u32,
        after: u32,
    },
    ScFail {
        address: u32,
    },
    Amo {
        address: u32,
        before: u32,
        after: u32,
    },
}

/// Why a hart stopped for good.
#[derive(Clone, Copy, Debug, PartialEq, Eq)]
pub enum HaltCause {
    Exit(u32),
    Illegal(u32),
    Breakpoint,
    UnknownCall(u32),
    MisalignedTarget(u32),
    FetchOutside(u32),
    MisalignedAccess(u32),
    LoadOutside(u32),
    StoreOutside(u32),
}

/// A completed instruction.
#[derive(Clone, Copy, Debug, PartialEq, Eq)]
pub struct Op {
    pub key: Key,
    pub hart: HartNo,
    pub pc: u32,
    pub effect: Effect,
}
