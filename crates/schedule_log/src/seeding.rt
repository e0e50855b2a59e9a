//! The turns of a seed.

ghost use Rattle.std.specs.Prelude.{◌≡◌, ◌≤◌, ℕ, ◌<◌, ◌+◌, ◌*◌, ◌/◌, ◌%◌, ◌++◌, [], ◌∷◌, drop, length, min};
ghost use Rattle.std.specs.Prelude.{slice_index_or, take, All, IfOk};
ghost use Rattle.schedule_log.specs.DdmTypes.declared.turns.Turn.{Turn as OneTurn};
ghost use Rattle.rand_pcg.specs.Pcg.{pcg32};
ghost use Rattle.tree_config.specs.Levels.{leaves_of, widths_of};
ghost use Rattle.text_model.specs.ReadBack.{IsTurnOf};
ghost use Rattle.text_model.specs.Seeded.{bus_turn_from, seeded_turn, seeded_turns};
ghost use Rattle.schedule_log.specs.Draws.{widths_drawn};
ghost use Rattle.schedule_log.specs.Seeding.{turns_left};
ghost use Rattle.schedule_log.specs.Shapes.{shape_view};

use crate::bus_draws::{BusDraws, TreeDraws};
use crate::of_ddm_types::{BusNo, Divisor, HartNo, NoMemory, Turn};
use rand_core::utils::NextWord;
use rand_pcg::Pcg32;
use std::alloc::Global;
use std::marker::Model;
use std::mem;
use tree_config::Shape;

/// The stream of the generator.
const STREAM: u64 = 54;

// The turn of a hart and that of a bus, one of which two words of the generator draw, for a tree with this many harts and buses.
#[inline(always)]
fn both_turns<'a, D: BusDraws>(draws: &'a D, harts: &Divisor, a: u32, b: u32) -> (Turn, &'a Turn)
    ensures { (t : OneTurn) →
        slice_index_or (result.0 ∷ result.1.now ∷ []) (a / 2 % 2) t
        ≡ seeded_turn (record { harts = harts.now; buses = D.widths draws.now }) a b }
{
    let (victim, hart) = harts.divide(b);
    let of_hart = Turn::Hart {
        hart: HartNo(hart),
        victim: (victim % 256) as u8,
    };
    (of_hart, draws.draw(a, b))
}

// Puts the next turn of a generator at a place of a block that has a further one. There a turn is put that isn't drawn, or the one that is
// drawn is put over the other: so there is no branch, and nothing is read that was just written.
#[inline(always)]
fn put_next<D: BusDraws>(
    draws: &D,
    harts: &Divisor,
    words: &mut Pcg32,
    block: &mut [Turn],
    place: usize,
)
    requires inside { place + 1 < length block.old }
    ensures front { (n : ℕ) →
        take (place + 1) block.new
        ++ turns_left (record { harts = harts.now; buses = D.widths draws.now }) words.new n
        ≡ take place block.old
        ++ turns_left (record { harts = harts.now; buses = D.widths draws.now }) words.old (n + 1) }
    ensures behind { drop (place + 2) block.new ≡ drop (place + 2) block.old }
{
    let a = words.next_word();
    let b = words.next_word();
    let (of_hart, of_bus) = both_turns(draws, harts, a, b);
    block[place] = of_hart;
    block[place + 1 - (a / 2 % 2) as usize] = *of_bus;
}

// Puts so many turns of a generator at the front of a block that has a further place. The generator is taken out of its place meanwhile, so
// that it stays in the processor's registers.
fn put_turns<D: BusDraws>(
    draws: &D,
    harts: &Divisor,
    words: &mut Pcg32,
    block: &mut [Turn],
    count: usize,
)
    requires inside { count < length block.old }
    ensures front { (n : ℕ) →
        take count block.new
        ++ turns_left (record { harts = harts.now; buses = D.widths draws.now }) words.new n
        ≡ turns_left (record { harts = harts.now; buses = D.widths draws.now }) words.old (count + n) }
    ensures behind { drop (count + 1) block.new ≡ drop (count + 1) block.old }
{
    let mut taken = mem::replace(words, Pcg32::new(0, STREAM));
    for made in 0..count {
        put_next(draws, harts, &mut taken, block, made);
    }
    *words = taken;
}

// The same, with one look at how buses are drawn.
fn put_drawn(
    draws: &TreeDraws,
    harts: &Divisor,
    words: &mut Pcg32,
    block: &mut [Turn],
    count: usize,
)
    requires inside { count < length block.old }
    ensures front { (n : ℕ) →
        take count block.new
        ++ turns_left (record { harts = harts.now; buses = widths_drawn draws.now }) words.new n
        ≡ turns_left (record { harts = harts.now; buses = widths_drawn draws.now }) words.old (count + n) }
    ensures behind { drop (count + 1) block.new ≡ drop (count + 1) block.old }
{
    match draws {
        TreeDraws::Even(draws) => put_turns(draws, harts, words, block, count),
        TreeDraws::Each(draws) => put_turns(draws, harts, words, block, count),
    }
}

/// The turns of a seed for the parts of a tree, each made when it is asked for, of two words of the generator. A contract sees the
/// tree's parts and the turns that are left.
#[derive(Drop)]
pub struct SeededTurns {
    words: Pcg32,
    left: u32,
    harts: Divisor,
    draws: TreeDraws,
}

impl Model for SeededTurns {
    ghost use Rattle.std.specs.Prelude.{◌≤◌, length};
    ghost use Rattle.schedule_log.specs.Draws.{widths_drawn};
    ghost use Rattle.schedule_log.specs.Seeding.{SeededView, seeded_view};

    ghost Value = { SeededView };

    ghost view = { λ s. seeded_view s.harts (widths_drawn s.draws) s.words s.left };

    ghost invariant = { λ s. (1 ≤ s.harts) × (1 ≤ length (widths_drawn s.draws)) };
}

impl SeededTurns {
    /// For the parts of a tree. No turn is left before a seed has begun.
    pub fn new(alloc: Global, shape: &Shape) -> Result<SeededTurns, NoMemory>
        ensures { IfOk result (λ seeds. seeds ≡ record { shape = shape_view shape.now; left = [] }) }
    {
        let draws = TreeDraws::new(alloc, shape)?;
        Ok(SeededTurns {
            words: Pcg32::new(0, STREAM),
            left: 0,
            harts: Divisor::new(shape.harts()),
            draws,
        })
    }

    /// A seed begins: so many turns of it are left, whatever was left before. It takes no memory.
    pub fn begin(&mut self, seed: u64, turns: u32)
        ensures turns { self.new ≡ record self.old { left = seeded_turns self.old.shape seed turns } }
        ensures known { All (IsTurnOf self.old.shape) self.new.left }
        ensures count { length self.new.left ≡ turns }
    {
        self.words = Pcg32::new(seed, STREAM);
        self.left = turns;
    }

    // How many turns are left.
    fn len(&self) -> usize
        ensures { result ≡ length self.now.left }
    {
        self.left as usize
    }

    /// The next turn. It is taken from a list, so that the processor has no branch to guess.
    pub fn next_turn(&mut self) -> Turn
        requires { 0 < length self.old.left }
        ensures turn { self.old.left ≡ result ∷ self.new.left }
        ensures shape { self.new.shape ≡ self.old.shape }
    {
        let a = self.words.next_word();
        let b = self.words.next_word();
        self.left -= 1;
        let (of_hart, of_bus) = both_turns(&self.draws, &self.harts, a, b);
        let both = [of_hart, *of_bus];
        both[(a / 2 % 2) as usize]
    }

    /// Puts the next turns at the front of a block, as many as are left and find place there, and answers how many these are. The
    /// places behind them stay. It takes no memory.
    pub fn next_block(&mut self, block: &mut [Turn]) -> usize
        ensures count { result ≡ min (length block.old) (length self.old.left) }
        ensures block { take result block.new ≡ take result self.old.left }
        ensures behind { drop result block.new ≡ drop result block.old }
        ensures left { self.new ≡ record self.old { left = drop result self.old.left } }
    {
        let count = block.len().min(self.len());
        if count == 0 {
            return 0;
        }
        put_drawn(&self.draws, &self.harts, &mut self.words, block, count - 1);
        self.left -= (count - 1) as u32;
        block[count - 1] = self.next_turn();
        count
    }
}

/// The schedule of a seed: so many turns, each of two words of the generator, and each of a part of the tree.
pub fn seeded(alloc: Global, seed: u64, turns: u32, shape: &Shape) -> Result<Vec<Turn>, NoMemory>
    ensures turns { IfOk result (λ list. list.items ≡ seeded_turns (shape_view shape.now) seed turns) }
    ensures known { IfOk result (λ list. All (IsTurnOf (shape_view shape.now)) list.items) }
    ensures count { IfOk result (λ list. length list.items ≡ turns) }
{
    let mut left = SeededTurns::new(alloc, shape)?;
    left.begin(seed, turns);
    let mut list = Vec::from_elem(alloc, Turn::Down { bus: BusNo(0) }, turns as usize)?;
    left.next_block(&mut list);
    Ok(list)
}
