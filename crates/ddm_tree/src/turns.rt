//! What a turn names, as a path and a turn of one bus.

ghost use Rattle.std.specs.Prelude.{◌≡◌, slice_index};
ghost use Rattle.ddm_tree.specs.DdmTypes.Keys.{key_on};
ghost use Rattle.ddm_tree.specs.TreeModel.Turns.Machine.{bus_turn_of, victim_of};

use crate::of_ddm_types::{ChildNo, Key, Stamp, Turn};
use crate::of_tree_model::BusTurn;

/// A turn as its bus sees it.
pub(crate) fn on_bus(turn: &Turn) -> BusTurn
    ensures { result ≡ bus_turn_of turn.now }
{
    match turn {
        Turn::Hart { .. } | Turn::Down { .. } => BusTurn::Down,
        Turn::Request { child, .. } => BusTurn::Request(*child),
        Turn::Reply { child, .. } => BusTurn::Reply(*child),
        Turn::Leave { child, choice, .. } => BusTurn::Leave(*child, *choice),
    }
}

/// The way that a hart's turn may clear.
pub(crate) fn victim(turn: &Turn) -> u8
    ensures { result ≡ victim_of turn.now }
{
    match turn {
        Turn::Hart { victim, .. } => *victim,
        Turn::Down { .. } | Turn::Request { .. } | Turn::Reply { .. } | Turn::Leave { .. } => 0,
    }
}

/// The child number of this level on a path, 0 where the path has none.
fn child_on(path: &[ChildNo], level: usize) -> ChildNo
    ensures { result ≡ slice_index path.now level }
{
    path.get(level).map_or(ChildNo(0), |child| *child)
}

/// The key with the numbers of a stamp, the child numbers of a path and this last number: that of an instruction that completes now at
/// the leaf of this path, of whose hart so many are done.
pub(crate) fn key_on(present: Stamp, path: &[ChildNo], done: u32) -> Key
    ensures { result ≡ key_on present path.now done }
{
    Key::zero()
        .at_level(0, present, child_on(path, 0))
        .at_level(1, present, child_on(path, 1))
        .at_level(2, present, child_on(path, 2))
        .at_level(3, present, child_on(path, 3))
        .counted(done)
}
