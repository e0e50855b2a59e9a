//! The shape of a tree.

ghost use Rattle.std.specs.Prelude.{◌≡◌, ◌≤◌, ◌<◌, ◌^◌, ◌↔◌, Some, IfSome, IsNone, IsTrue, length, slice_get, sum};
ghost use Rattle.tree_config.specs.Levels.{IsShape, is_width, leaves_of, widths_of};

use crate::of_ddm_types::BusNo;
use std::marker::Model;

/// The buses and leaves of a tree. A contract sees it as its levels of buses, from the top, and each level as the
/// numbers of children of its buses from left to right.
#[derive(Debug, Drop)]
pub struct Shape {
    pub(crate) levels: Vec<Vec<u32>>,
}

impl Model for Shape {
    ghost use Rattle.std.specs.Prelude.{ℕ, List};
    ghost use Rattle.tree_config.specs.Levels.{IsShape};
    ghost use Rattle.tree_config.specs.Lists.{lists_of};

    ghost Value = { List (List ℕ) };

    ghost view = { λ s. lists_of s.levels.items };

    ghost invariant = { λ s. IsShape (lists_of s.levels.items) };
}

fn total(widths: &[u32]) -> u32
    requires { sum widths.now < 2 ^ 32 }
    ensures { result ≡ sum widths.now }
{
    widths.iter().sum()
}

impl Shape {
    /// The number of leaves, which is that of harts.
    pub fn harts(&self) -> u32
        ensures leaves { result ≡ leaves_of self.now }
        ensures some { 1 ≤ result }
        ensures few { result ≤ 64 }
    {
        match self.levels.last() {
            Some(level) => total(level),
            None => 0,
        }
    }

    /// The number of buses.
    pub fn buses(&self) -> u32
        ensures buses { result ≡ length (widths_of self.now) }
        ensures some { 1 ≤ result }
        ensures few { result ≤ 256 }
    {
        let mut buses = 0;
        for level in &self.levels {
            buses += level.len() as u32;
        }
        buses
    }

    /// The number of levels of buses, which is that of buses over each leaf.
    pub fn depth(&self) -> u32
        ensures levels { result ≡ length self.now }
        ensures shape { IsShape self.now }
    {
        self.levels.len() as u32
    }

    /// How many children each bus of a level has, from left to right; levels are counted from the top, from 0.
    pub fn level(&self, level: u32) -> &[u32]
        requires { level < length self.now }
        ensures widths { Some result.now ≡ slice_get self.now level }
        ensures shape { IsShape self.now }
    {
        &self.levels[level as usize]
    }

    /// The number of children of a bus, where there is such a bus.
    pub fn children(&self, bus: BusNo) -> Option<u32>
        ensures children { result ≡ slice_get (widths_of self.now) bus }
        ensures none { IsNone result ↔ (length (widths_of self.now) ≤ bus) }
        ensures width { IfSome result (λ n. IsTrue (is_width n)) }
    {
        let mut index = bus.0 as usize;
        for level in &self.levels {
            if index < level.len() {
                return Some(level[index]);
            }
            index -= level.len();
        }
        None
    }
}
