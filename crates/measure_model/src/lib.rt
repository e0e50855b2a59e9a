//! What a recorded run is measured by, as definitions: counts of what its turns answered, the greatest lengths that its lists reach, and
//! the text of both. And what holds of every such run.
#![tactic(auto)]

pub mod examples;
pub mod laws;

/// Of a run: the turns that were drawn, those that are recorded, and of these how many answered so; besides them the turns that were
/// made and answered busy.
#[derive(Clone, Copy, Debug, PartialEq, Eq)]
pub struct RunTotals {
    pub turns: u32,
    pub drawn: u32,
    pub retired: u32,
    pub issued: u32,
    pub granted: u32,
    pub halted: u32,
    pub busy: u32,
}

/// Of the turns of a hart: how many completed an instruction that loads, stores, does both at once, or is a conditional store that
/// fails; how many asked to read an item or to erase its other copies; and how many were busy.
#[derive(Clone, Copy, Debug, PartialEq, Eq)]
pub struct HartCounts {
    pub loads: u32,
    pub stores: u32,
    pub amos: u32,
    pub failed: u32,
    pub reads: u32,
    pub erases: u32,
    pub busy: u32,
}

/// Of an item: how many turns asked to read it, how many to erase its other copies, and how many granted an inject of it.
#[derive(Clone, Copy, Debug, PartialEq, Eq)]
pub struct ItemCounts {
    pub reads: u32,
    pub erases: u32,
    pub injects: u32,
}
