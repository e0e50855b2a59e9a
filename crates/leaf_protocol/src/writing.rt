//! The words of a leaf.

ghost use Rattle.std.specs.Prelude.{◌≡◌, ◌<◌, ◌≤◌, drop, length, option_map, OnErr, OnOk};
ghost use Rattle.std.specs.List.{flat_map};
ghost use Rattle.leaf_protocol.specs.DdmText.Adds.{Adds};
ghost use Rattle.leaf_protocol.specs.StateWords.Begins.{Begins};
ghost use Rattle.leaf_protocol.specs.StateWords.Numbers.{slot_words};
ghost use Rattle.leaf_protocol.specs.StateWords.Parts.{buffer_words, counted, hart_words, leaf_words, standing};
ghost use Rattle.leaf_protocol.specs.StateWords.Parts.{standing_at, standing_in, standing_words};
ghost use Rattle.leaf_protocol.specs.Leaf.{request_value};

use crate::entries::Entries;
use crate::leaf::Leaf;
use crate::of_ddm_types::{ItemId, LeafState, NoMemory, TxKind, Words};
use crate::of_state_words::{
    Spelled, halt_words, push_words, reserved_word, slot_number, state_number,
};
use std::marker::Model;

/// An entry that stands in a way, with its item.
#[derive(Clone, Copy)]
pub(crate) struct Standing<const WORDS: usize> {
    pub item: ItemId,
    pub way: u32,
    pub state: LeafState,
    pub words: Words<WORDS>,
}

impl<const WORDS: usize> Model for Standing<WORDS> {
    ghost use Rattle.leaf_protocol.specs.StateWords.Parts.{StandingValue};

    ghost Value = { StandingValue };

    ghost view = { λ s. record { item = s.item; entry = record { way = s.way; state = s.state; words = s.words } } };

    ghost inverse = { λ v. record { item = v.item; way = v.entry.way; state = v.entry.state; words = v.entry.words } };
}

impl<const WORDS: usize> Spelled for Standing<WORDS> {
    ghost words = { standing_words };

    fn spell(&self, out: &mut Vec<u32>) -> Result<(), NoMemory> {
        push_words(out, &[self.item.0, self.way, state_number(self.state)])?;
        push_words(out, &self.words.w)
    }
}

/// Puts all but the first of the words at the end.
#[tactic(auto, using(std::proofs::lemmas::List::take_rest))]
fn push_rest(out: &mut Vec<u32>, words: &[u32]) -> Result<(), NoMemory>
    requires { 0 < length words.now }
    ensures ok { OnOk result (Adds out.old.items out.new.items (drop 1 words.now)) }
    ensures err { OnErr result (out.new.items ≡ out.old.items) }
{
    push_words(out, &words[1..])
}

/// What a slot asks for, and the item.
fn slot_words(slot: Option<(TxKind, ItemId)>) -> [u32; 2]
    ensures { result ≡ slot_words (option_map request_value slot) }
{
    match slot {
        Some((kind, item)) => [slot_number(kind), item.0],
        None => [0, 0],
    }
}

impl<const WAYS: usize, const WORDS: usize> Entries<WAYS, WORDS> {
    /// The entry in that way of that set.
    fn standing(&self, set: u32, way: u32) -> Option<Standing<WORDS>>
        requires set { set < self.now.sets }
        requires way { way < WAYS }
        ensures { result ≡ standing_at self.now.sets self.now.ways set way }
    {
        let item = self.memory.at(set, way)?;
        let (way, state) = self.memory.find(item).unwrap();
        let words = self.memory.words(item).unwrap();
        Some(Standing {
            item,
            way,
            state,
            words,
        })
    }

    /// How many entries stand in the ways of a set.
    #[tactic(auto, using(crate::proofs::Standing::taken_way, crate::proofs::Standing::free_way))]
    fn count_in(&self, set: u32) -> u32
        requires { set < self.now.sets }
        ensures value { result ≡ length (standing_in self.now.sets self.now.ways WAYS set) }
        ensures few { result ≤ WAYS }
    {
        let mut count = 0;
        for way in 0..self.memory.ways() {
            if self.standing(set, way).is_some() {
                count += 1;
            }
        }
        count
    }

    /// How many entries stand in ways.
    #[tactic(auto, using(crate::proofs::Standing::one_set_more, crate::proofs::Standing::all_sets, crate::proofs::Standing::no_sets))]
    fn count_standing(&self) -> u32
        ensures { result ≡ length (standing self.now.sets self.now.ways WAYS) }
    {
        let mut count = 0;
        for set in 0..self.memory.sets() {
            count += self.count_in(set);
        }
        count
    }

    /// Puts the words of the entries in the ways of a set at the end.
    #[tactic(auto, using(crate::proofs::Standing::words_of_way, crate::proofs::Standing::free_way))]
    fn write_set(&self, set: u32, out: &mut Vec<u32>) -> Result<(), NoMemory>
        requires { set < self.now.sets }
        ensures ok { OnOk result
            (Adds out.old.items out.new.items
            (flat_map standing_words (standing_in self.now.sets self.now.ways WAYS set))) }
        ensures err { OnErr result (Begins out.old.items out.new.items) }
    {
        for way in 0..self.memory.ways() {
            if let Some(entry) = self.standing(set, way) {
                entry.spell(out)?;
            }
        }
        Ok(())
    }

    /// Puts the words of the entries in ways at the end, by set and then by way, with how many there are before them.
    #[tactic(auto, using(crate::proofs::Standing::words_of_set, crate::proofs::Standing::all_sets, crate::proofs::Standing::no_sets))]
    pub fn write_standing(&self, out: &mut Vec<u32>) -> Result<(), NoMemory>
        ensures ok { OnOk result (Adds out.old.items out.new.items (counted standing_words (standing self.now.sets self.now.ways WAYS))) }
        ensures err { OnErr result (Begins out.old.items out.new.items) }
    {
        push_words(out, &[self.count_standing()])?;
        for set in 0..self.memory.sets() {
            self.write_set(set, out)?;
        }
        Ok(())
    }

    /// Puts the words of the entries in the buffer at the end, with how many there are before them.
    pub fn write_buffer(&self, out: &mut Vec<u32>) -> Result<(), NoMemory>
        ensures ok { OnOk result (Adds out.old.items out.new.items (counted buffer_words self.now.buffer)) }
        ensures err { OnErr result (Begins out.old.items out.new.items) }
    {
        self.buffer.write(out)
    }
}

impl<const WAYS: usize, const WORDS: usize> Leaf<WAYS, WORDS> {
    /// How many ways each set of its memory has.
    pub fn ways(&self) -> u32
        ensures { result ≡ self.now.sizes.way_count }
    {
        self.entries.memory.ways()
    }

    /// Puts its words at the end, but those of its hart.
    pub fn write_part(&self, out: &mut Vec<u32>) -> Result<(), NoMemory>
        ensures ok { OnOk result (Adds out.old.items out.new.items (leaf_words self.now)) }
        ensures err { OnErr result (Begins out.old.items out.new.items) }
    {
        push_words(out, &[reserved_word(self.reservation.item())])?;
        push_words(out, &slot_words(self.slot))?;
        self.entries.write_standing(out)?;
        self.entries.write_buffer(out)?;
        self.replies.write(out)?;
        Ok(())
    }

    /// Puts the words of its hart at the end.
    pub fn write_hart(&self, out: &mut Vec<u32>) -> Result<(), NoMemory>
        ensures ok { OnOk result (Adds out.old.items out.new.items (hart_words self.now)) }
        ensures err { OnErr result (Begins out.old.items out.new.items) }
    {
        push_rest(out, &self.hart.registers())?;
        push_words(out, &[self.hart.pc(), self.hart.done()])?;
        push_words(out, &halt_words(self.hart.halted()))?;
        Ok(())
    }
}
