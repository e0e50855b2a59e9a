//! The machine of buses as definitions: the values of a leaf, a directory and the tree, and what each turn makes of them.
#![tactic(auto)]

pub mod laws;
pub mod of_ddm_types;
pub mod of_rv_decode;

use crate::of_ddm_types::{BusNo, ChildNo, LeafNo};

/// One turn of a bus, seen from it.
#[derive(Clone, Copy, Debug, PartialEq, Eq)]
pub enum BusTurn {
    Down,
    Request(ChildNo),
    Reply(ChildNo),
    Leave(ChildNo, u8),
}

/// A child of a bus: a leaf, or a directory, which is named by the bus below it.
#[derive(Clone, Copy, Debug, PartialEq, Eq)]
pub enum TreeChild {
    LeafChild(LeafNo),
    BusChild(BusNo),
}

/// Where a leaf has its entry of an item: in a way of the item's set, or at a place of the buffer, counted from 0.
#[derive(Clone, Copy, Debug, PartialEq, Eq)]
pub enum LeafSpot {
    Way(u32),
    Buffer(u32),
}

/// Where a copy of an item stands. Places of a list are counted from 0.
#[derive(Clone, Copy, Debug, PartialEq, Eq)]
pub enum CopyPlace {
    LeafWay { leaf: LeafNo, way: u32 },
    LeafBuffer { leaf: LeafNo, place: u32 },
    Parking { bus: BusNo, place: u32 },
    DownList { bus: BusNo, place: u32 },
}

/// How many transactions of each kind a bus has granted. `copies` counts those that carry data.
#[derive(Clone, Copy, Debug, PartialEq, Eq)]
pub struct Traffic {
    pub reads: u32,
    pub copies: u32,
    pub erases: u32,
    pub exclusives: u32,
    pub outs: u32,
    pub injects: u32,
}

/// How long the lists of the directory over a bus are. A place of its parking that is kept for an inject counts as much as a parked
/// copy.
#[derive(Clone, Copy, Debug, PartialEq, Eq)]
pub struct DirLengths {
    pub down: u32,
    pub requests: u32,
    pub replies: u32,
    pub parking: u32,
}

/// How long the lists of a leaf are.
#[derive(Clone, Copy, Debug, PartialEq, Eq)]
pub struct LeafLengths {
    pub replies: u32,
    pub buffer: u32,
}
