//! What is in a list spells itself in words.

ghost use Rattle.std.specs.Prelude.{◌≡◌, ℕ, List, OnErr, OnOk};
ghost use Rattle.ddm_text.specs.Adds.{Adds};
ghost use Rattle.state_words.specs.TreeModel.State.Values.{RequestValue, CopyValue};
ghost use Rattle.state_words.specs.Begins.{Begins};
ghost use Rattle.state_words.specs.Parts.{down_words, item_and_words, op_words, request_words};

use crate::numbers::{effect_words, key_words, kind_number, stamp_words};
use crate::of_ddm_types::{ItemId, NoMemory, Op, TxKind, Words};
use item_states::DownEntry;

/// Puts words at the end.
pub fn push_words(out: &mut Vec<u32>, words: &[u32]) -> Result<(), NoMemory>
    ensures ok { OnOk result (Adds out.old.items out.new.items words.now) }
    ensures err { OnErr result (out.new.items ≡ out.old.items) }
{
    out.extend_from_slice(words)?;
    Ok(())
}

/// What a checkpoint spells in words.
pub trait Spelled {
    ghost words: { Self → List ℕ };

    /// Puts its words at the end.
    fn spell(&self, out: &mut Vec<u32>) -> Result<(), NoMemory>
        ensures ok { OnOk result (Adds out.old.items out.new.items (words self.now)) }
        ensures err { OnErr result (Begins out.old.items out.new.items) };
}

impl Spelled for (TxKind, ItemId) {
    ghost words = { λ r. request_words (record { kind = r.0; item = r.1 }) };

    fn spell(&self, out: &mut Vec<u32>) -> Result<(), NoMemory> {
        push_words(out, &[kind_number(self.0), self.1.0])
    }
}

impl<const WORDS: usize> Spelled for (ItemId, Words<WORDS>) {
    ghost words = { λ c. item_and_words (record { item = c.0; words = c.1 }) };

    fn spell(&self, out: &mut Vec<u32>) -> Result<(), NoMemory> {
        push_words(out, &[self.0.0])?;
        push_words(out, &self.1.w)
    }
}

impl<const WORDS: usize> Spelled for DownEntry<WORDS> {
    ghost words = { down_words };

    fn spell(&self, out: &mut Vec<u32>) -> Result<(), NoMemory> {
        push_words(out, &[kind_number(self.kind), self.item.0])?;
        push_words(out, &stamp_words(self.stamp))?;
        push_words(out, &self.words.w)
    }
}

impl Spelled for Op {
    ghost words = { op_words };

    fn spell(&self, out: &mut Vec<u32>) -> Result<(), NoMemory> {
        push_words(out, &key_words(self.key))?;
        push_words(out, &[self.hart.0, self.pc])?;
        push_words(out, &effect_words(self.effect))
    }
}
