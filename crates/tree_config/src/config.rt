//! What a tree file says.

ghost use Rattle.std.specs.Prelude.{◌≡◌};
ghost use Rattle.tree_config.specs.Ranges.{IsInRange};

use crate::of_ddm_types::TreeSizes;
use crate::shape::Shape;
use std::marker::Model;

/// A tree: its shape, the ways and sets of a leaf's memory, the places of its lists, its stacks and the bytes of an item.
#[derive(Debug, Drop)]
pub struct TreeConfig {
    pub nodes: Shape,
    /// How many ways each set of a leaf has.
    pub ways: u32,
    /// How many sets a leaf has.
    pub sets: u32,
    /// How many entries a leaf's buffer has room for.
    pub buffer: u32,
    /// How many copies a directory has room to park.
    pub parking: u32,
    /// How many entries a down list has room for, and so each next list.
    pub down: u32,
    pub requests: u32,
    pub replies: u32,
    /// The address at which the stack of hart 0 begins.
    pub stack_base: u32,
    /// How many bytes the stack of each hart has.
    pub stack_bytes: u32,
    pub item_bytes: u32,
}

impl Model for TreeConfig {
    ghost use Rattle.tree_model.specs.Start.Sources.{TreeValue};
    ghost use Rattle.tree_config.specs.Ranges.{IsInRange};

    ghost Value = { TreeValue };

    ghost use Rattle.tree_config.specs.Config.{value_of};

    ghost view = { value_of };

    ghost invariant = { λ c. IsInRange (value_of c) };
}

impl TreeConfig {
    /// The sizes of each leaf and of the lists.
    pub fn sizes(&self) -> TreeSizes
        ensures sizes { result ≡ self.now.sizes }
        ensures range { IsInRange self.now }
    {
        TreeSizes {
            sets: self.sets,
            buffer: self.buffer,
            parking: self.parking,
            down: self.down,
            requests: self.requests,
            replies: self.replies,
        }
    }
}
