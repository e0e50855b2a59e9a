//! Numbers of items, leaves, harts, buses and children, each a type of its own.

use std::alloc::{AllocError, AllocFailed};
use std::marker::Model;

/// The number of an item, counted from 0 by address.
#[derive(Clone, Copy, Debug, PartialEq, Eq, PartialOrd, Ord)]
pub struct ItemId(pub u32);

impl Model for ItemId {
    ghost use Rattle.std.specs.Prelude.{ℕ};

    ghost Value = { ℕ };

    ghost view = { λ item. item.0 };

    ghost inverse = { λ n. record { 0 = n } };
}

/// The number of a leaf, counted from 0 from left to right.
#[derive(Clone, Copy, Debug, PartialEq, Eq, PartialOrd, Ord)]
pub struct LeafNo(pub u32);

impl Model for LeafNo {
    ghost use Rattle.std.specs.Prelude.{ℕ};

    ghost Value = { ℕ };

    ghost view = { λ leaf. leaf.0 };

    ghost inverse = { λ n. record { 0 = n } };
}

/// The number of a hart, which is that of its leaf.
#[derive(Clone, Copy, Debug, PartialEq, Eq, PartialOrd, Ord)]
pub struct HartNo(pub u32);

impl Model for HartNo {
    ghost use Rattle.std.specs.Prelude.{ℕ};

    ghost Value = { ℕ };

    ghost view = { λ hart. hart.0 };

    ghost inverse = { λ n. record { 0 = n } };
}

/// The number of a bus, counted from 0 breadth first; bus 0 is the one under the top.
#[derive(Clone, Copy, Debug, PartialEq, Eq, PartialOrd, Ord)]
pub struct BusNo(pub u32);

impl Model for BusNo {
    ghost use Rattle.std.specs.Prelude.{ℕ};

    ghost Value = { ℕ };

    ghost view = { λ bus. bus.0 };

    ghost inverse = { λ n. record { 0 = n } };
}

/// The number of a child of a bus, counted from 0 from left to right.
#[derive(Clone, Copy, Debug, PartialEq, Eq, PartialOrd, Ord)]
pub struct ChildNo(pub u32);

impl Model for ChildNo {
    ghost use Rattle.std.specs.Prelude.{ℕ};

    ghost Value = { ℕ };

    ghost view = { λ child. child.0 };

    ghost inverse = { λ n. record { 0 = n } };
}

/// No memory was there.
#[derive(Clone, Copy, Debug, PartialEq, Eq)]
pub struct NoMemory;

impl From<AllocError> for NoMemory {
    fn from(_: AllocError) -> Self {
        NoMemory
    }
}

impl<T: Drop> From<AllocFailed<T>> for NoMemory {
    fn from(_: AllocFailed<T>) -> Self {
        NoMemory
    }
}

/// The words of an item, in order of address. A contract sees them as a list.
#[derive(Clone, Copy)]
pub struct Words<const WORDS: usize> {
    pub w: [u32; WORDS],
}

impl<const WORDS: usize> Model for Words<WORDS> {
    ghost use Rattle.std.specs.Prelude.{List, ℕ};

    ghost Value = { List ℕ };

    ghost view = { λ words. words.w };

    ghost inverse = { λ list. record { w = list } };
}
