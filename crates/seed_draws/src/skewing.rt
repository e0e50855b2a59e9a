//! The rates of a skewed seed, and which turns they let by.

ghost use Rattle.std.specs.Prelude.{◌≡◌, ◌≤◌, All, IfOk, length};
ghost use Rattle.schedule_log.specs.Shapes.{shape_view};
ghost use Rattle.recording_model.specs.LetBy.{let_by_rate, rate_of, skew_from, skew_of};

use crate::of_ddm_types::{NoMemory, Turn};
use crate::of_tree_config::Shape;
use crate::places::Places;
use rand_core::utils::NextWord;
use rand_pcg::Pcg32;
use std::alloc::Global;
use std::marker::Model;

/// The stream of the generator.
const STREAM: u64 = 55;

/// The rates that a word may choose.
const RATES: [u8; 4] = [0, 0, 3, 6];

// Puts a rate of the generator at each place.
fn put_rates(words: &mut Pcg32, rates: &mut [u8])
    ensures rates { rates.new ≡ (skew_from (length rates.old) words.old).rates }
    ensures words { words.new ≡ (skew_from (length rates.old) words.old).words }
    ensures few { All (λ r. r ≤ 6) rates.new }
{
    for place in 0..rates.len() {
        rates[place] = RATES[(words.next_word() % 4) as usize];
    }
}

/// The rates of a tree's turns, and the generator that lets turns by. A contract sees the tree's parts, the rates and the generator.
#[derive(Drop)]
pub(crate) struct Skewing {
    places: Places,
    rates: Vec<u8>,
    words: Pcg32,
}

impl Model for Skewing {
    ghost use Rattle.std.specs.Prelude.{◌≡◌, ◌≤◌, All, length};
    ghost use Rattle.recording_model.specs.LetBy.{turns_of_tree};
    ghost use Rattle.seed_draws.specs.Parts.{SkewView};

    ghost Value = { SkewView };

    ghost view = { λ s. record { shape = s.places; rates = s.rates.items; words = s.words } };

    ghost invariant = { λ s. (length s.rates.items ≡ turns_of_tree s.places) × All (λ r. r ≤ 6) s.rates.items };
}

impl Skewing {
    /// For the turns of a tree, each of which is let by before a seed has begun.
    pub(crate) fn new(alloc: Global, shape: &Shape) -> Result<Skewing, NoMemory>
        ensures { IfOk result (λ s. s.shape ≡ shape_view shape.now) }
    {
        let places = Places::new(alloc, shape)?;
        let rates = Vec::from_elem(alloc, 0, places.count() as usize)?;
        Ok(Skewing {
            places,
            rates,
            words: Pcg32::new(0, STREAM),
        })
    }

    /// A seed begins. It takes no memory.
    pub(crate) fn begin(&mut self, seed: u64)
        ensures shape { self.new.shape ≡ self.old.shape }
        ensures rates { self.new.rates ≡ (skew_of self.old.shape seed).rates }
        ensures words { self.new.words ≡ (skew_of self.old.shape seed).words }
    {
        self.words = Pcg32::new(seed, STREAM);
        put_rates(&mut self.words, &mut self.rates);
    }

    /// Whether a turn is let by. One of rate 0 always is, and takes no word.
    pub(crate) fn lets_by(&mut self, turn: &Turn) -> bool
        ensures shape { self.new.shape ≡ self.old.shape }
        ensures rates { self.new.rates ≡ self.old.rates }
        ensures by { (result, self.new.words) ≡ let_by_rate (rate_of self.old.shape self.old.rates turn.now) self.old.words }
    {
        let place = self.places.place(turn);
        let rate = self.rates.get(place).copied().unwrap_or(0);
        rate == 0 || self.words.next_word() % (1 << rate) == 0
    }
}
