//! Whether a state satisfies the condition of its test.

ghost use Rattle.std.specs.Prelude.{◌≡◌, ◌≤◌, ◌∷◌, false, length, not, true, IfOk, OnOk};
ghost use Rattle.litmus_model.specs.Kept.{test_from};
ghost use Rattle.litmus_model.specs.Satisfies.{alternative, atom_holds, denied_once_more, level_begun, level_closed};
ghost use Rattle.litmus_model.specs.Satisfies.{level_value, observed_word, outermost_value, satisfies, with_chunk};
ghost use Rattle.litmus_model.specs.Satisfies.{with_last, with_value};
ghost use Rattle.litmus_log.specs.Levels.{levels_in};

use ddm_text::of_ddm_types::NoMemory;
use litmus_image::word_of;
use litmus_model::{Chunk, Target, Test, Value, same_target};
use std::alloc::Global;
use std::marker::Model;

/// What is known of a bracket that is open, or of the whole.
#[derive(Clone, Copy)]
struct Level {
    /// An alternative before the last `or` is true.
    any: bool,
    /// All behind the last `or` are true.
    all: bool,
    /// What comes next is denied.
    denied: bool,
}

impl Model for Level {
    ghost use Rattle.litmus_model.specs.Satisfies.{Level};
    ghost use Rattle.litmus_log.specs.Levels.{level_code};

    ghost Value = { Level };

    ghost coded = { level_code };

    ghost view = { λ l. record { any = l.any; all = l.all; denied = l.denied } };

    ghost inverse = { λ l. record { any = l.any; all = l.all; denied = l.denied } };
}

impl Level {
    fn begun() -> Level
        ensures { result ≡ level_begun }
    {
        Level {
            any: false,
            all: true,
            denied: false,
        }
    }

    fn value(self) -> bool
        ensures { result ≡ level_value self }
    {
        self.any || self.all
    }

    fn with_value(self, value: bool) -> Level
        ensures { result ≡ with_value value self }
    {
        Level {
            any: self.any,
            all: self.all && value != self.denied,
            denied: false,
        }
    }

    fn denied_once_more(self) -> Level
        ensures { result ≡ record self { denied = not self.denied } }
    {
        Level {
            any: self.any,
            all: self.all,
            denied: !self.denied,
        }
    }

    fn alternative(self) -> Level
        ensures { result ≡ record { any = level_value self; all = true; denied = false } }
    {
        Level {
            any: self.value(),
            all: true,
            denied: false,
        }
    }
}

// The innermost of the levels with one more value.
#[tactic(auto, using(crate::proofs::Levels::pushed, crate::proofs::Levels::none))]
fn put_value(levels: &mut Vec<Level>, value: bool) -> Result<(), NoMemory>
    ensures { OnOk result (levels_in levels.new.items ≡ with_last value (levels_in levels.old.items)) }
{
    if let Some(level) = levels.pop() {
        levels.push(level.with_value(value))?;
    }
    Ok(())
}

#[tactic(auto, using(crate::proofs::Levels::pushed, crate::proofs::Levels::none))]
fn deny(levels: &mut Vec<Level>) -> Result<(), NoMemory>
    ensures { OnOk result (levels_in levels.new.items ≡ denied_once_more (levels_in levels.old.items)) }
{
    if let Some(level) = levels.pop() {
        levels.push(level.denied_once_more())?;
    }
    Ok(())
}

#[tactic(auto, using(crate::proofs::Levels::pushed, crate::proofs::Levels::none))]
fn begin_alternative(levels: &mut Vec<Level>) -> Result<(), NoMemory>
    ensures { OnOk result (levels_in levels.new.items ≡ alternative (levels_in levels.old.items)) }
{
    if let Some(level) = levels.pop() {
        levels.push(level.alternative())?;
    }
    Ok(())
}

#[tactic(auto, using(crate::proofs::Levels::pushed, crate::proofs::Levels::none))]
fn close(levels: &mut Vec<Level>) -> Result<(), NoMemory>
    ensures { OnOk result (levels_in levels.new.items ≡ level_closed (levels_in levels.old.items)) }
{
    if let Some(level) = levels.pop() {
        put_value(levels, level.value())?;
    }
    Ok(())
}

#[tactic(auto, using(crate::proofs::Levels::pushed))]
fn open(levels: &mut Vec<Level>) -> Result<(), NoMemory>
    ensures { OnOk result (levels_in levels.new.items ≡ level_begun ∷ levels_in levels.old.items) }
{
    levels.push(Level::begun())?;
    Ok(())
}

/// The word of a target, where these ones are observed with these words.
#[tactic(auto, using(crate::proofs::Levels::word_steps))]
fn observed_word(targets: &[Target], words: &[u32], target: &Target) -> u32
    ensures { result ≡ observed_word targets.now words.now target.now }
{
    for place in 0..targets.len().min(words.len()) {
        if same_target(&targets[place], target) {
            return words[place];
        }
    }
    0
}

fn atom_holds(test: &Test, item_bytes: u32, words: &[u32], target: &Target, value: &Value) -> bool
    requires few { length test.now.locations.items ≤ 256 }
    requires small { item_bytes ≤ 64 }
    ensures { result ≡ atom_holds (test_from test.now) item_bytes words.now target.now value.now }
{
    observed_word(&test.observed, words, target) == word_of(test, item_bytes, value)
}

// One more chunk.
#[tactic(auto, unfolding(litmus_model::specs::Satisfies::with_chunk))]
fn put_chunk(
    levels: &mut Vec<Level>,
    test: &Test,
    item_bytes: u32,
    words: &[u32],
    chunk: &Chunk,
) -> Result<(), NoMemory>
    requires few { length test.now.locations.items ≤ 256 }
    requires small { item_bytes ≤ 64 }
    ensures { OnOk result
        (levels_in levels.new.items
        ≡ with_chunk (test_from test.now) item_bytes words.now (levels_in levels.old.items) chunk.now) }
{
    match chunk {
        Chunk::Open => open(levels),
        Chunk::Close => close(levels),
        Chunk::Not => deny(levels),
        Chunk::And => Ok(()),
        Chunk::Or => begin_alternative(levels),
        Chunk::True => put_value(levels, true),
        Chunk::False => put_value(levels, false),
        Chunk::Is { target, value } => {
            put_value(levels, atom_holds(test, item_bytes, words, target, value))
        }
    }
}

#[tactic(auto, using(crate::proofs::Levels::pushed, crate::proofs::Levels::none))]
fn outermost_value(levels: Vec<Level>) -> bool
    ensures { result ≡ outermost_value (levels_in levels.items) }
{
    let mut left = levels;
    match left.pop() {
        Some(level) => level.value(),
        None => false,
    }
}

/// Whether a state, the words of what is observed, satisfies the condition of the test.
#[tactic(auto, using(crate::proofs::Levels::chunk_steps), unfolding(litmus_model::specs::Satisfies::satisfies))]
pub fn satisfies(
    alloc: Global,
    test: &Test,
    item_bytes: u32,
    words: &[u32],
) -> Result<bool, NoMemory>
    requires few { length test.now.locations.items ≤ 256 }
    requires small { item_bytes ≤ 64 }
    ensures { IfOk result (λ satisfied. satisfied ≡ satisfies (test_from test.now) item_bytes words.now) }
{
    let mut levels = Vec::new(alloc);
    open(&mut levels)?;
    for chunk in &test.chunks {
        put_chunk(&mut levels, test, item_bytes, words, chunk)?;
    }
    Ok(outermost_value(levels))
}
