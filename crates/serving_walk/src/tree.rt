//! What a walk looks at: the buses of a tree, their children, and what each of these holds.

ghost use Rattle.std.specs.Prelude.{◌≡◌, ◌<◌, Some, is_some, true};
ghost use Rattle.headline.specs.DdmTypes.ItemTable.{item_count};
ghost use Rattle.headline.specs.TreeModel.State.Values.{MachineValue};
ghost use Rattle.headline.specs.TreeModel.Turns.Machine.{child_count, child_hold_of, child_of, is_child_of};

use ddm_types::{BusNo, ChildNo, Hold, ItemId};
use headline::of_tree_model::TreeChild;

/// A machine whose parts can be looked at.
pub trait Tree {
    ghost value: { Self → MachineValue };

    /// How many children a bus has.
    fn children(&self, bus: BusNo) -> u32
        requires { is_some (child_count bus (value self.now)) ≡ true }
        ensures { Some result ≡ child_count bus (value self.now) };

    fn child(&self, bus: BusNo, child: ChildNo) -> TreeChild
        requires { is_child_of child (child_count bus (value self.now)) ≡ true }
        ensures { Some result ≡ child_of bus child (value self.now) };

    /// What a child of a bus holds of an item.
    fn child_hold(&self, bus: BusNo, child: ChildNo, item: ItemId) -> Hold
        requires child { is_child_of child (child_count bus (value self.now)) ≡ true }
        requires item { item < item_count (value self.now).items }
        ensures { Some result ≡ child_hold_of bus child item (value self.now) };
}
