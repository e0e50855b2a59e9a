//! How a turn of a bus is drawn.

ghost use Rattle.std.specs.Prelude.{◌≡◌, ◌≤◌, ◌<◌, ◌%◌, ℕ, List, IfOk, IfSome, length, replicate};
ghost use Rattle.tree_config.specs.Levels.{widths_of};
ghost use Rattle.text_model.specs.Seeded.{seeded_turn};
ghost use Rattle.schedule_log.specs.Draws.{widths_drawn};
ghost use Rattle.schedule_log.specs.Seeding.{AreAll, buses_of, even_turns};

use crate::bus_turns::{BusTurns, bus_turn};
use crate::of_ddm_types::{BusNo, Divisor, NoMemory, Turn};
use crate::parts::width_at;
use std::alloc::Global;
use std::marker::Model;
use tree_config::Shape;

/// What draws the turns of a tree's buses.
pub(crate) trait BusDraws {
    /// The numbers of children of the buses.
    ghost widths: { Self → List ℕ };

    /// The turn of two words of the generator that are a bus's.
    fn draw(&self, a: u32, b: u32) -> &Turn
        ensures { (harts : ℕ) → 2 ≤ a % 4 → result.now ≡ seeded_turn (record { harts = harts; buses = widths self.now }) a b };
}

/// The turns of buses that have as many children each: a bus and its source are drawn at once. A contract sees the numbers of children.
#[derive(Drop)]
pub(crate) struct EvenBuses {
    buses: u32,
    children: u32,
    /// How many sources all buses have.
    sources: Divisor,
    turns: Vec<Turn>,
}

impl Model for EvenBuses {
    ghost use Rattle.std.specs.Prelude.{ℕ, List, replicate};
    ghost use Rattle.schedule_log.specs.Seeding.{AreEven};

    ghost Value = { List ℕ };

    ghost view = { λ e. replicate e.buses e.children };

    ghost invariant = { λ e. AreEven e.buses e.children e.sources e.turns.items };
}

// The number of children of each bus of a tree, if it is the same.
fn even_width(shape: &Shape, buses: u32) -> Option<u32>
    requires count { buses ≡ length (widths_of shape.now) }
    requires some { 1 ≤ buses }
    ensures all { IfSome result (λ children. AreAll children (widths_of shape.now)) }
    ensures few { IfSome result (λ children. children ≤ 16) }
{
    let children = width_at(shape, 0);
    for bus in 0..buses {
        if width_at(shape, bus) != children {
            return None;
        }
    }
    Some(children)
}

// All turns of so many buses with as many children each: those of each source of each bus stand together, by their choices.
fn even_turns(alloc: Global, buses: u32, children: u32) -> Result<Vec<Turn>, NoMemory>
    requires some { 1 ≤ buses }
    requires few_buses { buses ≤ 256 }
    requires few { children ≤ 16 }
    ensures { IfOk result (λ turns. turns.items ≡ even_turns buses children) }
{
    let count = buses * (1 + 3 * children) * 16;
    let mut turns = Vec::with_capacity(alloc, count as usize)?;
    for place in 0..count {
        let part = place / 16;
        turns.push(bus_turn(
            BusNo(part % buses),
            children,
            (place % 16) as u8,
            part / buses,
        ))?;
    }
    Ok(turns)
}

impl EvenBuses {
    fn new(alloc: Global, buses: u32, children: u32) -> Result<EvenBuses, NoMemory>
        requires some { 1 ≤ buses }
        requires few_buses { buses ≤ 256 }
        requires few { children ≤ 16 }
        ensures { IfOk result (λ e. e ≡ replicate buses children) }
    {
        let turns = even_turns(alloc, buses, children)?;
        Ok(EvenBuses {
            buses,
            children,
            sources: Divisor::new(buses * (1 + 3 * children)),
            turns,
        })
    }
}

impl BusDraws for EvenBuses {
    ghost widths = { λ e. e };

    #[inline(always)]
    fn draw(&self, a: u32, b: u32) -> &Turn {
        let source = self.sources.remainder(b);
        &self.turns[(source * 16 + a / 4 % 16) as usize]
    }
}

/// The turns of each bus of a tree: a bus is drawn, and then its source. A contract sees the numbers of children.
#[derive(Drop)]
pub(crate) struct EachBus {
    buses: Divisor,
    list: Vec<BusTurns>,
}

impl Model for EachBus {
    ghost use Rattle.std.specs.Prelude.{ℕ, List};
    ghost use Rattle.schedule_log.specs.Seeding.{AreListed, widths_in};

    ghost Value = { List ℕ };

    ghost view = { λ e. widths_in e.list.items };

    ghost invariant = { λ e. AreListed e.buses e.list.items };
}

// The turns of a tree's buses, by number: a turn asks for one of them.
fn all_bus_turns(alloc: Global, shape: &Shape, buses: u32) -> Result<Vec<BusTurns>, NoMemory>
    requires { buses ≡ length (widths_of shape.now) }
    ensures { IfOk result (λ list. list.items ≡ buses_of (widths_of shape.now)) }
{
    let mut list = Vec::with_capacity(alloc, buses as usize)?;
    for bus in 0..buses {
        let children = width_at(shape, bus);
        list.push(BusTurns::new(alloc, BusNo(bus), children)?)?;
    }
    Ok(list)
}

impl BusDraws for EachBus {
    ghost widths = { λ e. e };

    #[inline(always)]
    fn draw(&self, a: u32, b: u32) -> &Turn {
        let (word, bus) = self.buses.divide(b);
        self.list[bus as usize].turn(a / 4 % 16, word)
    }
}

/// The turns of a tree's buses, to be drawn. A contract sees the numbers of children.
#[derive(Drop)]
pub(crate) enum TreeDraws {
    Even(EvenBuses),
    Each(EachBus),
}

impl TreeDraws {
    pub(crate) fn new(alloc: Global, shape: &Shape) -> Result<TreeDraws, NoMemory>
        ensures widths { IfOk result (λ draws. widths_drawn draws ≡ widths_of shape.now) }
        ensures some { IfOk result (λ draws. 1 ≤ length (widths_drawn draws)) }
    {
        let buses = shape.buses();
        match even_width(shape, buses) {
            Some(children) => Ok(TreeDraws::Even(EvenBuses::new(alloc, buses, children)?)),
            None => Ok(TreeDraws::Each(EachBus {
                buses: Divisor::new(buses),
                list: all_bus_turns(alloc, shape, buses)?,
            })),
        }
    }
}

impl BusDraws for TreeDraws {
    ghost widths = { widths_drawn };

    #[inline(always)]
    fn draw(&self, a: u32, b: u32) -> &Turn {
        match self {
            TreeDraws::Even(draws) => draws.draw(a, b),
            TreeDraws::Each(draws) => draws.draw(a, b),
        }
    }
}
