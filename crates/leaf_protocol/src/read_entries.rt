//! The entries of a leaf are read back.

ghost use Rattle.std.specs.Prelude.{◌≡◌, ◌<◌, ◌≤◌, ◌^◌, ◌+◌, ◌∷◌, ◌++◌, ◌&&◌, [], Ok, Err, List, Some, drop, length};
ghost use Rattle.std.specs.Prelude.{nat_lt, slice_set, not, IfErr, IfOk};
ghost use Rattle.std.specs.Bool.{OnTrue};
ghost use Rattle.leaf_protocol.specs.StateWords.Parts.{StandingValue};
ghost use Rattle.leaf_protocol.specs.TreeModel.State.States.{is_reading};
ghost use Rattle.leaf_protocol.specs.TreeModel.State.Values.{BufferValue};
ghost use Rattle.leaf_protocol.specs.TreeModel.State.Leaf.{words_in};
ghost use Rattle.leaf_protocol.specs.StateReading.Gives.{Gives};
ghost use Rattle.leaf_protocol.specs.StateReading.Reading.{times, word_that};
ghost use Rattle.leaf_protocol.specs.StateReading.Parts.{last_of, not_before, read_buffered, read_standing, way_not_before};
ghost use Rattle.leaf_protocol.specs.ReadBack.{AreThere, BufferRead, IsSized, StandingRead, EntriesRead, bare};
ghost use Rattle.leaf_protocol.specs.ReadBack.{buffered_read, entries_read, entry_read, may_come, may_stand};

use crate::entries::{Entries, waits};
use crate::of_ddm_types::{ItemId, LeafState, Words};
use crate::of_state_reading::{
    StateRefusal, any_word, item_words, keep, look, state_of, word_below, word_from_1, word_to,
};
use crate::writing::Standing;

/// Whether an entry in this state has words.
fn has_words(state: LeafState) -> bool
    ensures { result ≡ not (is_reading state) }
{
    match state {
        LeafState::Shared | LeafState::Exclusive | LeafState::Waiting => true,
        LeafState::Reading | LeafState::ReadingWaiting => false,
    }
}

/// Whether the item's set is no earlier one than that of the last entry.
fn not_before<const WORDS: usize>(sets: u32, item: u32, last: &Option<Standing<WORDS>>) -> bool
    requires { 0 < sets }
    ensures { result ≡ not_before sets item last.now }
{
    match last {
        Some(last) => last.item.0 % sets <= item % sets,
        None => true,
    }
}

/// Whether, in the set of the last entry, the way is no earlier one than its.
fn way_not_before<const WORDS: usize>(
    sets: u32,
    item: u32,
    way: u32,
    last: &Option<Standing<WORDS>>,
) -> bool
    requires { 0 < sets }
    ensures { result ≡ way_not_before sets item way last.now }
{
    match last {
        Some(last) => last.item.0 % sets < item % sets || last.way <= way,
        None => true,
    }
}

impl<const WAYS: usize, const WORDS: usize> Entries<WAYS, WORDS> {
    /// The next word, the item of an entry that may stand behind the last one.
    fn item_word(
        &self,
        words: &[u32],
        at: &mut u32,
        last: &Option<Standing<WORDS>>,
    ) -> Result<u32, StateRefusal>
        requires few { length words.now < 2 ^ 32 }
        requires inside { at.old ≤ length words.now }
        ensures read { Gives
            (word_that (λ x. nat_lt x (length self.now.ways) && not_before self.now.sets x last.now) at.old
            (drop at.old words.now)) words.now at.new result }
        ensures below { IfOk result (λ x. x < length self.now.ways) }
        ensures inside { at.new ≤ length words.now }
    {
        let item = look(words, *at)?;
        let fits = item < self.items() && not_before(self.memory.sets(), item, last);
        keep(item, fits, at)
    }

    /// The next word, the way of an entry of this item that may stand behind the last one.
    fn way_word(
        &self,
        words: &[u32],
        at: &mut u32,
        item: u32,
        last: &Option<Standing<WORDS>>,
    ) -> Result<u32, StateRefusal>
        requires few { length words.now < 2 ^ 32 }
        requires inside { at.old ≤ length words.now }
        ensures read { Gives
            (word_that (λ way. nat_lt way WAYS && way_not_before self.now.sets item way last.now) at.old
            (drop at.old words.now)) words.now at.new result }
        ensures below { IfOk result (λ way. way < WAYS) }
        ensures inside { at.new ≤ length words.now }
    {
        let way = look(words, *at)?;
        let fits = way < self.memory.ways() && way_not_before(self.memory.sets(), item, way, last);
        keep(way, fits, at)
    }

    /// The next entry in a way, behind the last one.
    fn read_entry(
        &self,
        words: &[u32],
        at: &mut u32,
        last: &Option<Standing<WORDS>>,
    ) -> Result<Standing<WORDS>, StateRefusal>
        requires few { length words.now < 2 ^ 32 }
        requires inside { at.old ≤ length words.now }
        requires words_fit { WORDS < 2 ^ 32 }
        ensures read { Gives
            (entry_read (length self.now.ways) self.now.sets WAYS WORDS last.now at.old (drop at.old words.now))
            words.now at.new result }
        ensures item { IfOk result (λ s. s.item < length self.now.ways) }
        ensures way { IfOk result (λ s. s.entry.way < WAYS) }
        ensures words { IfOk result (λ s. s.entry.words ≡ words_in s.entry.state WORDS s.entry.words) }
        ensures inside { at.new ≤ length words.now }
    {
        let item = self.item_word(words, at, last)?;
        let way = self.way_word(words, at, item, last)?;
        let state = state_of(word_from_1(words, at, 5)?);
        let words = item_words(words, at, has_words(state))?;
        Ok(Standing {
            item: ItemId(item),
            way,
            state,
            words,
        })
    }

    /// Whether the item has no entry, and one in this state may come.
    fn may_come(&self, item: ItemId, state: LeafState) -> bool
        ensures { result ≡ may_come item state self.now }
    {
        self.state(item).is_none() && (!waits(state) || self.waiting().is_none())
    }

    /// Whether the entry may come into its way.
    fn may_stand(&self, entry: &Standing<WORDS>) -> bool
        requires { entry.now.entry.way < WAYS }
        ensures { result ≡ may_stand entry.now self.now }
    {
        !self.is_taken(entry.item, entry.way) && self.may_come(entry.item, entry.state)
    }

    /// The entry comes into its way, if the others are whole and it may. Whether they are whole with it.
    fn stand_beside(&mut self, entry: &Standing<WORDS>, whole: bool) -> bool
        requires inside { entry.now.item < length self.old.ways }
        requires exists { entry.now.entry.way < WAYS }
        requires words { entry.now.entry.words ≡ words_in entry.now.entry.state WORDS entry.now.entry.words }
        ensures value { result ≡ (whole && may_stand entry.now self.old) }
        ensures ways { OnTrue result (self.new.ways ≡ slice_set self.old.ways entry.now.item (Some entry.now.entry)) }
        ensures buffer { self.new.buffer ≡ self.old.buffer }
        ensures sizes { IsSized self.old self.new }
    {
        let fits = whole && self.may_stand(entry);
        if fits {
            self.stand(entry.item, entry.way, entry.state, entry.words);
        }
        fits
    }

    /// The entry comes to the end of the buffer, if the others are whole and it may. Whether they are whole with it.
    fn put_beside(
        &mut self,
        item: ItemId,
        state: LeafState,
        words: &Words<WORDS>,
        whole: bool,
    ) -> bool
        requires inside { item < length self.old.ways }
        requires room { length self.old.buffer < self.old.room }
        requires words { words.now ≡ words_in state WORDS words.now }
        ensures value { result ≡ (whole && may_come item state self.old) }
        ensures buffer { OnTrue result
            (self.new.buffer ≡ self.old.buffer ++ record { item = item; state = state; words = words.now } ∷ []) }
        ensures count { length self.new.buffer ≤ length self.old.buffer + 1 }
        ensures ways { self.new.ways ≡ self.old.ways }
        ensures sizes { IsSized self.old self.new }
    {
        let fits = whole && self.may_come(item, state);
        if fits {
            self.put(item, state, *words);
        }
        fits
    }
}

impl<const WAYS: usize, const WORDS: usize> Entries<WAYS, WORDS> {
    /// Reads one more entry in a way, and puts it beside the others: it, and whether they are whole with it.
    fn read_one_standing(
        &mut self,
        words: &[u32],
        at: &mut u32,
        last: &Option<Standing<WORDS>>,
        whole: bool,
    ) -> Result<(Standing<WORDS>, bool), StateRefusal>
        requires few { length words.now < 2 ^ 32 }
        requires inside { at.old ≤ length words.now }
        requires words_fit { WORDS < 2 ^ 32 }
        ensures read { (ss : List StandingValue) → last.now ≡ last_of ss → IfOk result (λ r.
            read_standing (length self.old.ways) (bare WAYS WORDS self.old.sets) ss at.old
            (drop at.old words.now)
            ≡ Ok (record { value = r.0 ∷ ss; at = at.new; rest = drop at.new words.now })) }
        ensures there { (ss : List StandingValue) → AreThere (length self.old.ways) ss [] self.old whole →
            IfOk result (λ r. AreThere (length self.old.ways) (r.0 ∷ ss) [] self.new r.1) }
        ensures refused { (ss : List StandingValue) → last.now ≡ last_of ss → IfErr result (λ e.
            read_standing (length self.old.ways) (bare WAYS WORDS self.old.sets) ss at.old (drop at.old words.now) ≡ Err e) }
        ensures buffer { self.new.buffer ≡ self.old.buffer }
        ensures sizes { IsSized self.old self.new }
        ensures inside { at.new ≤ length words.now }
    {
        let entry = self.read_entry(words, at, last)?;
        let fits = self.stand_beside(&entry, whole);
        Ok((entry, fits))
    }

    /// Reads so many entries in ways, in place of all that are there. Whether they can be together.
    fn read_standing(
        &mut self,
        words: &[u32],
        at: &mut u32,
        count: u32,
    ) -> Result<bool, StateRefusal>
        requires few { length words.now < 2 ^ 32 }
        requires inside { at.old ≤ length words.now }
        requires words_fit { WORDS < 2 ^ 32 }
        ensures read { IfOk result
            (StandingRead (length self.old.ways)
            (times (read_standing (length self.old.ways) (bare WAYS WORDS self.old.sets)) count [] at.old
            (drop at.old words.now)) words.now at.new self.new) }
        ensures refused { IfErr result
            (λ e. times (read_standing (length self.old.ways) (bare WAYS WORDS self.old.sets)) count [] at.old
            (drop at.old words.now)
            ≡ Err e) }
        ensures buffer { self.new.buffer ≡ [] }
        ensures sizes { IsSized self.old self.new }
        ensures inside { at.new ≤ length words.now }
    {
        self.clear();
        let mut whole = true;
        let mut last = None;
        'entries: for done in 0..count {
            let (entry, fits) = self.read_one_standing(words, at, &last, whole)?;
            whole = fits;
            last = Some(entry);
        }
        Ok(whole)
    }

    /// The next entry in the buffer.
    fn read_buffer_entry(
        &self,
        words: &[u32],
        at: &mut u32,
    ) -> Result<(ItemId, LeafState, Words<WORDS>), StateRefusal>
        requires few { length words.now < 2 ^ 32 }
        requires inside { at.old ≤ length words.now }
        requires words_fit { WORDS < 2 ^ 32 }
        ensures read { IfOk result
            (λ b. buffered_read (length self.now.ways) WORDS at.old (drop at.old words.now)
            ≡ Ok (record {
              value = record { item = b.0; state = b.1; words = b.2 };
              at = at.new;
              rest = drop at.new words.now;
            })) }
        ensures refused { IfErr result (λ e. buffered_read (length self.now.ways) WORDS at.old (drop at.old words.now) ≡ Err e) }
        ensures item { IfOk result (λ b. b.0 < length self.now.ways) }
        ensures words { IfOk result (λ b. b.2 ≡ words_in b.1 WORDS b.2) }
        ensures inside { at.new ≤ length words.now }
    {
        let item = word_below(words, at, self.items())?;
        let state = state_of(word_from_1(words, at, 5)?);
        let words = item_words(words, at, has_words(state))?;
        Ok((ItemId(item), state, words))
    }

    /// Reads one more entry in the buffer, and puts it beside the others. Whether they are whole with it.
    fn read_one_buffered(
        &mut self,
        words: &[u32],
        at: &mut u32,
        whole: bool,
    ) -> Result<bool, StateRefusal>
        requires few { length words.now < 2 ^ 32 }
        requires inside { at.old ≤ length words.now }
        requires words_fit { WORDS < 2 ^ 32 }
        requires room { length self.old.buffer < self.old.room }
        ensures read { (ss : List StandingValue) (bs : List BufferValue) → AreThere (length self.old.ways) ss bs self.old whole →
            IfOk result (BufferRead (length self.old.ways) ss
            (read_buffered (length self.old.ways) (bare WAYS WORDS self.old.sets) bs at.old
            (drop at.old words.now)) words.now at.new self.new) }
        ensures refused { (bs : List BufferValue) →
            IfErr result (λ e. read_buffered (length self.old.ways) (bare WAYS WORDS self.old.sets) bs at.old
            (drop at.old words.now)
            ≡ Err e) }
        ensures count { length self.new.buffer ≤ length self.old.buffer + 1 }
        ensures sizes { IsSized self.old self.new }
        ensures inside { at.new ≤ length words.now }
    {
        let (item, state, read) = self.read_buffer_entry(words, at)?;
        Ok(self.put_beside(item, state, &read, whole))
    }

    /// Reads so many entries in the buffer, where there are those in ways alone. Whether they can be together.
    fn read_buffered(
        &mut self,
        words: &[u32],
        at: &mut u32,
        count: u32,
        whole: bool,
    ) -> Result<bool, StateRefusal>
        requires few { length words.now < 2 ^ 32 }
        requires inside { at.old ≤ length words.now }
        requires words_fit { WORDS < 2 ^ 32 }
        requires room { length self.old.buffer + count ≤ self.old.room }
        ensures read { (ss : List StandingValue) → AreThere (length self.old.ways) ss [] self.old whole →
            IfOk result (BufferRead (length self.old.ways) ss
            (times (read_buffered (length self.old.ways) (bare WAYS WORDS self.old.sets)) count
            [] at.old (drop at.old words.now)) words.now at.new self.new) }
        ensures refused { (ss : List StandingValue) → AreThere (length self.old.ways) ss [] self.old whole →
            IfErr result (λ e. times (read_buffered (length self.old.ways) (bare WAYS WORDS self.old.sets))
            count [] at.old (drop at.old words.now)
            ≡ Err e) }
        ensures sizes { IsSized self.old self.new }
        ensures inside { at.new ≤ length words.now }
    {
        let mut now = whole;
        'entries: for done in 0..count {
            now = self.read_one_buffered(words, at, now)?;
        }
        Ok(now)
    }

    /// Reads the entries in ways and in the buffer, in place of those that are there. Whether they can be together.
    pub fn read(&mut self, words: &[u32], at: &mut u32) -> Result<bool, StateRefusal>
        requires few { length words.now < 2 ^ 32 }
        requires inside { at.old ≤ length words.now }
        requires words_fit { WORDS < 2 ^ 32 }
        ensures read { IfOk result
            (EntriesRead (length self.old.ways)
            (entries_read (length self.old.ways) WAYS WORDS self.old.sets self.old.room at.old
            (drop at.old words.now)) words.now at.new self.new) }
        ensures refused { IfErr result
            (λ e. entries_read (length self.old.ways) WAYS WORDS self.old.sets self.old.room at.old
            (drop at.old words.now)
            ≡ Err e) }
        ensures sizes { IsSized self.old self.new }
        ensures inside { at.new ≤ length words.now }
    {
        let standing = any_word(words, at)?;
        let together = self.read_standing(words, at, standing)?;
        let buffered = word_to(words, at, self.room())?;
        self.read_buffered(words, at, buffered, together)
    }
}
