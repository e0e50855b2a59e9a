//! The keys of operations, level by level.

ghost use Rattle.std.specs.Prelude.{◌≡◌, ◌<◌, ◌≤◌, ◌&&◌, nat_eq};
ghost use Rattle.ddm_tree.specs.Keys.{is_key_before, key_cut};

use crate::of_ddm_types::{ChildNo, Key, Stamp};

/// The key with the numbers of so many levels, and 0 in place of the others.
fn cut(key: &Key, depth: u32) -> Key
    requires some { 0 < depth }
    requires few { depth ≤ 4 }
    ensures { result ≡ key_cut depth key.now }
{
    let none = ChildNo(0);
    let one = Stamp::zero().at_level(0, key.s0);
    let two = one.at_level(1, key.s1);
    let three = two.at_level(2, key.s2);
    match depth {
        1 => key
            .at_level(1, one, none)
            .at_level(2, one, none)
            .at_level(3, one, none),
        2 => key.at_level(2, two, none).at_level(3, two, none),
        3 => key.at_level(3, three, none),
        _ => *key,
    }
}

/// Whether two keys have the same child numbers.
fn same_children(key: &Key, other: &Key) -> bool
    ensures { result
        ≡ (nat_eq key.now.c0 other.now.c0
        && (nat_eq key.now.c1 other.now.c1
        && (nat_eq key.now.c2 other.now.c2 && nat_eq key.now.c3 other.now.c3))) }
{
    key.c0 == other.c0 && (key.c1 == other.c1 && (key.c2 == other.c2 && key.c3 == other.c3))
}

/// Whether a key has the path of the leaf where this is the present key, and is less than that.
pub(crate) fn is_key_before(depth: u32, now: &Key, key: &Key) -> bool
    requires some { 0 < depth }
    requires few { depth ≤ 4 }
    ensures { result ≡ is_key_before depth now.now key.now }
{
    let key = cut(key, depth);
    let now = cut(now, depth);
    same_children(&key, &now) && key.precedes(&now)
}
