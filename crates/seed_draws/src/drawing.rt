//! The drawn turns of a seed.

ghost use Rattle.std.specs.Prelude.{◌≡◌, ◌≤◌, ◌<◌, List, ◌∷◌, [], All, IfOk, length};
ghost use Rattle.seed_draws.specs.DdmTypes.declared.turns.Turn.{Turn as OneTurn};
ghost use Rattle.seed_draws.specs.Parts.{draws_left, turns_in_block};
ghost use Rattle.schedule_log.specs.Shapes.{shape_view};
ghost use Rattle.seed_draws.specs.TextModel.ReadBack.{IsTurnOf};
ghost use Rattle.recording_model.specs.LetBy.{Draw, seed_draws};

use crate::of_ddm_types::{BusNo, NoMemory, Turn};
use crate::of_tree_config::Shape;
use crate::skewing::Skewing;
use recording_model::SeedKind;
use schedule_log::SeededTurns;
use std::alloc::Global;
use std::marker::Model;

/// So many turns are drawn at once: a block is drawn faster than as many turns one by one, and what is drawn when a run ends was for
/// nothing.
const BLOCK: usize = 64;

// Whether the next turn of a seed of this kind is let by.
#[inline(always)]
fn lets_by(kind: SeedKind, skewing: &mut Skewing, turn: &Turn) -> bool
    ensures draws { (later : List OneTurn) →
        draws_left kind skewing.old.shape skewing.old (turn.now ∷ later)
        ≡ record { turn = turn.now; let_by = result } ∷ draws_left kind skewing.old.shape skewing.new later }
    ensures shape { skewing.new.shape ≡ skewing.old.shape }
{
    match kind {
        SeedKind::Even => true,
        SeedKind::Skewed => skewing.lets_by(turn),
    }
}

// Draws the next turns, where all of the block were taken.
#[inline(always)]
fn fill(seeds: &mut SeededTurns, block: &mut [Turn], next: &mut usize, end: &mut usize)
    requires some { 0 < length (turns_in_block next.old end.old block.old seeds.old.left) }
    requires order { next.old ≤ end.old }
    requires inside { end.old ≤ length block.old }
    requires room { 0 < length block.old }
    ensures left { turns_in_block next.new end.new block.new seeds.new.left
        ≡ turns_in_block next.old end.old block.old seeds.old.left }
    ensures some { next.new < end.new }
    ensures inside { end.new ≤ length block.new }
    ensures shape { seeds.new.shape ≡ seeds.old.shape }
{
    if *next == *end {
        *end = seeds.next_block(block);
        *next = 0;
    }
}

/// The turns that a seed draws for the parts of a tree, with whether each is let by. A contract sees the tree's parts and the draws that
/// are left.
#[derive(Drop)]
pub struct SeedDraws {
    kind: SeedKind,
    seeds: SeededTurns,
    skewing: Skewing,
    /// Turns that were drawn: those from `next` on, before `end`, are the next ones.
    block: Vec<Turn>,
    next: usize,
    end: usize,
}

impl Model for SeedDraws {
    ghost use Rattle.std.specs.Prelude.{◌≡◌, ◌≤◌, ◌<◌, length};
    ghost use Rattle.seed_draws.specs.Parts.{DrawsView, draws_left, turns_in_block};

    ghost Value = { DrawsView };

    ghost view = { λ s. record {
      shape = s.seeds.shape;
      left = draws_left s.kind s.seeds.shape s.skewing (turns_in_block s.next s.end s.block.items s.seeds.left);
    } };

    ghost invariant = { λ s. (s.skewing.shape ≡ s.seeds.shape) × (s.next ≤ s.end) × (s.end ≤ length s.block.items)
        × (0 < length s.block.items) };
}

impl SeedDraws {
    /// For the parts of a tree. No draw is left before a seed has begun.
    pub fn new(alloc: Global, shape: &Shape) -> Result<SeedDraws, NoMemory>
        ensures { IfOk result (λ draws. draws ≡ record { shape = shape_view shape.now; left = [] }) }
    {
        let seeds = SeededTurns::new(alloc, shape)?;
        let skewing = Skewing::new(alloc, shape)?;
        let block = Vec::from_elem(alloc, Turn::Down { bus: BusNo(0) }, BLOCK)?;
        Ok(SeedDraws {
            kind: SeedKind::Even,
            seeds,
            skewing,
            block,
            next: 0,
            end: 0,
        })
    }

    /// A seed begins: so many of its draws are left, whatever was left before. It takes no memory.
    pub fn begin(&mut self, kind: SeedKind, seed: u64, count: u32)
        ensures draws { self.new ≡ record self.old { left = seed_draws kind self.old.shape seed count } }
        ensures known { All (λ (d : Draw). IsTurnOf self.old.shape d.turn) self.new.left }
        ensures count { length self.new.left ≡ count }
    {
        self.kind = kind;
        self.next = 0;
        self.end = 0;
        self.seeds.begin(seed, count);
        self.skewing.begin(seed);
    }

    /// The next turn, and whether it is let by. It takes no memory.
    #[inline(always)]
    pub fn next_draw(&mut self) -> (Turn, bool)
        requires { 0 < length self.old.left }
        ensures draw { self.old.left ≡ record { turn = result.0; let_by = result.1 } ∷ self.new.left }
        ensures shape { self.new.shape ≡ self.old.shape }
    {
        fill(
            &mut self.seeds,
            &mut self.block,
            &mut self.next,
            &mut self.end,
        );
        let turn = self.block[self.next];
        self.next += 1;
        let let_by = lets_by(self.kind, &mut self.skewing, &turn);
        (turn, let_by)
    }
}
