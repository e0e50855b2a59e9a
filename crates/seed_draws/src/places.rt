//! Where the turns of a tree stand, victims and choices aside: its harts first, then the turns of each bus.

ghost use Rattle.std.specs.Prelude.{◌≡◌, ◌≤◌, ◌<◌, ◌^◌, IfOk, length, slice_index_or};
ghost use Rattle.schedule_log.specs.Shapes.{shape_view};
ghost use Rattle.recording_model.specs.LetBy.{place_of, turns_before, turns_of_tree};
ghost use Rattle.seed_draws.specs.Parts.{bus_of, child_of, downs_before, is_of_hart, number_of, rows_before};

use crate::of_ddm_types::{BusNo, NoMemory, Turn};
use crate::of_tree_config::Shape;
use std::alloc::Global;
use std::marker::Model;

// The number of children of a bus of the tree.
fn width_at(shape: &Shape, bus: u32) -> u32
    requires { bus < length (shape_view shape.now).buses }
    ensures width { result ≡ slice_index_or (shape_view shape.now).buses bus 0 }
    ensures few { result ≤ 16 }
{
    shape.children(BusNo(bus)).unwrap_or(0)
}

// The value at a place, or the other one where there is none.
fn value_at(values: &[u32], place: u32, other: u32) -> u32
    ensures { result ≡ slice_index_or values.now place other }
{
    values.get(place as usize).copied().unwrap_or(other)
}

// What a turn is of. Each of these is one for all turns, so that its place is found without a branch.

#[inline(always)]
fn is_of_hart(turn: &Turn) -> bool
    ensures { result ≡ is_of_hart turn.now }
{
    matches!(turn, Turn::Hart { .. })
}

#[inline(always)]
fn number_of(turn: &Turn) -> usize
    ensures number { result ≡ number_of turn.now }
{
    match *turn {
        Turn::Hart { hart, .. } => hart.0 as usize,
        Turn::Down { bus } => bus.0 as usize,
        Turn::Request { bus, .. } => bus.0 as usize,
        Turn::Reply { bus, .. } => bus.0 as usize,
        Turn::Leave { bus, .. } => bus.0 as usize,
    }
}

#[inline(always)]
fn bus_of(turn: &Turn) -> BusNo
    ensures { result ≡ bus_of turn.now }
{
    match *turn {
        Turn::Hart { .. } => BusNo(0),
        Turn::Down { bus } => bus,
        Turn::Request { bus, .. } => bus,
        Turn::Reply { bus, .. } => bus,
        Turn::Leave { bus, .. } => bus,
    }
}

#[inline(always)]
fn downs_before(turn: &Turn) -> usize
    ensures downs { result ≡ downs_before turn.now }
    ensures few { result ≤ 1 }
{
    match turn {
        Turn::Hart { .. } | Turn::Down { .. } => 0,
        Turn::Request { .. } | Turn::Reply { .. } | Turn::Leave { .. } => 1,
    }
}

#[inline(always)]
fn rows_before(turn: &Turn) -> usize
    ensures rows { result ≡ rows_before turn.now }
    ensures few { result ≤ 2 }
{
    match turn {
        Turn::Hart { .. } | Turn::Down { .. } | Turn::Request { .. } => 0,
        Turn::Reply { .. } => 1,
        Turn::Leave { .. } => 2,
    }
}

#[inline(always)]
fn child_of(turn: &Turn) -> usize
    ensures child { result ≡ child_of turn.now }
    ensures few { result < 2 ^ 32 }
{
    match *turn {
        Turn::Hart { .. } | Turn::Down { .. } => 0,
        Turn::Request { child, .. } => child.0 as usize,
        Turn::Reply { child, .. } => child.0 as usize,
        Turn::Leave { child, .. } => child.0 as usize,
    }
}

/// The places of a tree's turns. A contract sees the tree's parts.
#[derive(Drop)]
pub(crate) struct Places {
    harts: u32,
    /// For each bus how many children it has, and how many turns stand before its own.
    widths: Vec<u32>,
    before: Vec<u32>,
    /// How many turns there are.
    count: u32,
}

impl Model for Places {
    ghost use Rattle.seed_draws.specs.TextModel.Schedule.{ShapeView};
    ghost use Rattle.seed_draws.specs.Parts.{ArePlaces};

    ghost Value = { ShapeView };

    ghost view = { λ p. record { harts = p.harts; buses = p.widths.items } };

    ghost invariant = { λ p. ArePlaces (record { harts = p.harts; buses = p.widths.items }) p.before.items p.count };
}

impl Places {
    pub(crate) fn new(alloc: Global, shape: &Shape) -> Result<Places, NoMemory>
        ensures { IfOk result (λ places. places ≡ shape_view shape.now) }
    {
        let buses = shape.buses();
        let mut widths = Vec::with_capacity(alloc, buses as usize)?;
        let mut before = Vec::with_capacity(alloc, buses as usize)?;
        let mut count = shape.harts();
        for bus in 0..buses {
            let children = width_at(shape, bus);
            widths.push(children)?;
            before.push(count)?;
            count += 1 + 3 * children;
        }
        Ok(Places {
            harts: shape.harts(),
            widths,
            before,
            count,
        })
    }

    /// How many turns there are.
    pub(crate) fn count(&self) -> u32
        ensures { result ≡ turns_of_tree self.now }
    {
        self.count
    }

    // How many stand before those of a bus.
    #[inline(always)]
    fn before(&self, bus: BusNo) -> u32
        ensures { result ≡ turns_before self.now bus }
    {
        value_at(&self.before, bus.0, self.count)
    }

    #[inline(always)]
    fn children(&self, bus: BusNo) -> u32
        ensures { result ≡ slice_index_or self.now.buses bus 0 }
    {
        value_at(&self.widths, bus.0, 0)
    }

    /// The place of a turn. No branch depends on what turn it is.
    #[inline(always)]
    pub(crate) fn place(&self, turn: &Turn) -> usize
        ensures { result ≡ place_of self.now turn.now }
    {
        let bus = bus_of(turn);
        let rows = rows_before(turn) * self.children(bus) as usize;
        let place = self.before(bus) as usize + downs_before(turn) + rows + child_of(turn);
        if is_of_hart(turn) {
            number_of(turn)
        } else {
            place
        }
    }
}
