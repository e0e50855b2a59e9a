//! The type of a machine of any tree: an enum over items, ways and levels.

use crate::of_cluster::Cluster;
use crate::of_ddm_tree::{Dir, Machine};
use crate::of_leaf_protocol::Leaf;

/// A machine whose leaves have so many ways, with so many levels of buses above them.
#[derive(Drop)]
pub enum Depths<const WAYS: usize, const WORDS: usize> {
    OneLevel(Machine<WORDS, Leaf<WAYS, WORDS>>),
    TwoLevels(Machine<WORDS, Cluster<WAYS, WORDS>>),
    ThreeLevels(Machine<WORDS, Dir<WORDS, Cluster<WAYS, WORDS>>>),
    FourLevels(Machine<WORDS, Dir<WORDS, Dir<WORDS, Cluster<WAYS, WORDS>>>>),
}

/// A machine whose leaves have one, two or four ways.
#[derive(Drop)]
pub enum Machines<const WORDS: usize> {
    OneWay(Depths<1, WORDS>),
    TwoWays(Depths<2, WORDS>),
    FourWays(Depths<4, WORDS>),
}

/// A machine of any tree, with items of four or of sixteen words.
#[derive(Drop)]
pub enum AnyMachine {
    Narrow(Machines<4>),
    Wide(Machines<16>),
}
