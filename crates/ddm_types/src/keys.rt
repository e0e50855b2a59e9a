//! Stamps and keys: moments of buses, and places in the one order.

ghost use Rattle.std.specs.Prelude.{◌≡◌, ◌<◌};
ghost use Rattle.ddm_types.specs.Keys.{stamp_zero, stamp_at, key_zero, key_at, key_counted, key_less};

use crate::numbers::ChildNo;

/// The number of levels of buses that a tree may have.
pub const LEVELS: u32 = 4;

/// The logical time of a bus: the number of grants on each bus from the top down to it, as far as they
/// have come down. The numbers of levels that a bus doesn't have are 0.
#[derive(Clone, Copy, Debug, PartialEq, Eq, PartialOrd, Ord)]
pub struct Stamp {
    pub s0: u32,
    pub s1: u32,
    pub s2: u32,
    pub s3: u32,
}

/// The place of a completed instruction in the witness: the numbers of the stamp of its leaf's bus, each
/// followed by the child number on the leaf's path, last the number of instructions that the hart had
/// completed before.
#[derive(Clone, Copy, Debug, PartialEq, Eq, PartialOrd, Ord)]
pub struct Key {
    pub s0: u32,
    pub c0: u32,
    pub s1: u32,
    pub c1: u32,
    pub s2: u32,
    pub c2: u32,
    pub s3: u32,
    pub c3: u32,
    pub i: u32,
}

impl Stamp {
    /// The stamp before any grant.
    #[inline(always)]
    pub fn zero() -> Self
        ensures { result ≡ stamp_zero }
    {
        Stamp {
            s0: 0,
            s1: 0,
            s2: 0,
            s3: 0,
        }
    }

    /// The stamp with `n` as the number of this level, counted from 0 from the top.
    #[inline(always)]
    pub fn at_level(self, level: u32, n: u32) -> Self
        requires { level < LEVELS }
        ensures { result ≡ stamp_at self level n }
    {
        match level {
            0 => Stamp { s0: n, ..self },
            1 => Stamp { s1: n, ..self },
            2 => Stamp { s2: n, ..self },
            _ => Stamp { s3: n, ..self },
        }
    }
}

impl Key {
    /// The key whose numbers are all 0.
    #[inline(always)]
    pub fn zero() -> Self
        ensures { result ≡ key_zero }
    {
        Key {
            s0: 0,
            c0: 0,
            s1: 0,
            c1: 0,
            s2: 0,
            c2: 0,
            s3: 0,
            c3: 0,
            i: 0,
        }
    }

    /// The key with the numbers of this stamp, and the child as the child number of this level.
    #[inline(always)]
    pub fn at_level(self, level: u32, stamp: Stamp, child: ChildNo) -> Self
        requires { level < LEVELS }
        ensures { result ≡ key_at self level stamp child }
    {
        let stamped = Key {
            s0: stamp.s0,
            s1: stamp.s1,
            s2: stamp.s2,
            s3: stamp.s3,
            ..self
        };
        match level {
            0 => Key {
                c0: child.0,
                ..stamped
            },
            1 => Key {
                c1: child.0,
                ..stamped
            },
            2 => Key {
                c2: child.0,
                ..stamped
            },
            _ => Key {
                c3: child.0,
                ..stamped
            },
        }
    }

    /// The key with `i` as its last number.
    #[inline(always)]
    pub fn counted(self, i: u32) -> Self
        ensures { result ≡ key_counted self i }
    {
        Key { i, ..self }
    }

    /// Whether this key comes before the other one, compared from the left.
    pub fn precedes(&self, other: &Key) -> bool
        ensures { result ≡ key_less self.now other.now }
    {
        self < other
    }
}
