//! The words of a list are read back.

ghost use Rattle.std.specs.Prelude.{◌≡◌, ◌+◌, ◌<◌, ◌≤◌, ◌^◌, ◌||◌, false, nat_eq, nat_le, nat_lt, Ok, Err, drop};
ghost use Rattle.std.specs.Prelude.{length, map, IfErr, IfOk, OnOk};
ghost use Rattle.state_reading.specs.Gives.{Gives};
ghost use Rattle.state_reading.specs.Reading.{word_that};
ghost use Rattle.state_reading.specs.Parts.{listed, read_copy, read_down, read_request};
ghost use Rattle.tx_queue.specs.Read.{copy_value, request_value};

use crate::Queue;
use crate::of_ddm_types::{ItemId, TxKind, Words};
use crate::of_item_states::DownEntry;
use state_reading::{
    StateRefusal, brings_copy, item_words, keep, kind_of, look, stamp_words, word_below,
    word_from_1, word_to,
};

/// The next word, 1 for a read and 3 for an erase.
fn request_word(words: &[u32], at: &mut u32) -> Result<u32, StateRefusal>
    requires few { length words.now < 2 ^ 32 }
    requires inside { at.old ≤ length words.now }
    ensures read { Gives (word_that (λ w. nat_eq w 1 || nat_eq w 3) at.old (drop at.old words.now)) words.now at.new result }
    ensures most { IfOk result (λ w. w ≤ 5) }
    ensures inside { at.new ≤ length words.now }
{
    let kind = look(words, *at)?;
    keep(kind, kind == 1 || kind == 3, at)
}

impl Queue<(TxKind, ItemId)> {
    /// Reads one request more.
    #[tactic(auto, using(crate::proofs::Steps::map_more))]
    fn read_request(&mut self, words: &[u32], at: &mut u32) -> Result<(), StateRefusal>
        requires few { length words.now < 2 ^ 32 }
        requires inside { at.old ≤ length words.now }
        requires numbered { self.old.items < 2 ^ 32 }
        requires place { nat_le self.old.capacity (length self.old.list) ≡ false }
        ensures read { OnOk result
            (read_request self.old.items (map request_value self.old.list) at.old (drop at.old words.now)
            ≡ Ok (record { value = map request_value self.new.list; at = at.new; rest = drop at.new words.now })) }
        ensures refused { IfErr result
            (λ e. read_request self.old.items (map request_value self.old.list) at.old (drop at.old words.now)
            ≡ Err e) }
        ensures inside { at.new ≤ length words.now }
        ensures more { OnOk result (length self.new.list ≡ length self.old.list + 1) }
        ensures capacity { self.new.capacity ≡ self.old.capacity }
        ensures items { self.new.items ≡ self.old.items }
    {
        let kind = request_word(words, at)?;
        let item = word_below(words, at, self.counts().len() as u32)?;
        self.put((kind_of(kind), ItemId(item)));
        Ok(())
    }

    /// Reads its requests, with how many there are before them, in place of those that it has.
    #[tactic(auto, using(state_reading::proofs::Steps::times_begun))]
    pub fn read_requests(&mut self, words: &[u32], at: &mut u32) -> Result<(), StateRefusal>
        requires few { length words.now < 2 ^ 32 }
        requires inside { at.old ≤ length words.now }
        requires numbered { self.old.items < 2 ^ 32 }
        ensures read { OnOk result
            (listed self.old.capacity (read_request self.old.items) at.old (drop at.old words.now)
            ≡ Ok (record { value = map request_value self.new.list; at = at.new; rest = drop at.new words.now })) }
        ensures refused { IfErr result
            (λ e. listed self.old.capacity (read_request self.old.items) at.old (drop at.old words.now) ≡ Err e) }
        ensures inside { at.new ≤ length words.now }
        ensures capacity { self.new.capacity ≡ self.old.capacity }
        ensures items { self.new.items ≡ self.old.items }
    {
        let count = word_to(words, at, self.capacity())?;
        self.clear();
        for _number in 0..count {
            self.read_request(words, at)?;
        }
        Ok(())
    }
}

impl<const WORDS: usize> Queue<(ItemId, Words<WORDS>)> {
    /// Reads one copy more.
    #[tactic(auto, using(crate::proofs::Steps::map_more))]
    fn read_copy(&mut self, words: &[u32], at: &mut u32) -> Result<(), StateRefusal>
        requires few { length words.now < 2 ^ 32 }
        requires inside { at.old ≤ length words.now }
        requires numbered { self.old.items < 2 ^ 32 }
        requires place { nat_le self.old.capacity (length self.old.list) ≡ false }
        ensures read { OnOk result
            (read_copy WORDS (λ x cs. nat_lt x self.old.items) (map copy_value self.old.list) at.old
            (drop at.old words.now)
            ≡ Ok (record { value = map copy_value self.new.list; at = at.new; rest = drop at.new words.now })) }
        ensures refused { IfErr result
            (λ e. read_copy WORDS (λ x cs. nat_lt x self.old.items) (map copy_value self.old.list) at.old
            (drop at.old words.now)
            ≡ Err e) }
        ensures inside { at.new ≤ length words.now }
        ensures more { OnOk result (length self.new.list ≡ length self.old.list + 1) }
        ensures capacity { self.new.capacity ≡ self.old.capacity }
        ensures items { self.new.items ≡ self.old.items }
    {
        let item = word_below(words, at, self.counts().len() as u32)?;
        let copy = item_words(words, at, true)?;
        self.put((ItemId(item), copy));
        Ok(())
    }

    /// Reads its copies, with how many there are before them, in place of those that it has.
    #[tactic(auto, using(state_reading::proofs::Steps::times_begun))]
    pub fn read_copies(&mut self, words: &[u32], at: &mut u32) -> Result<(), StateRefusal>
        requires few { length words.now < 2 ^ 32 }
        requires inside { at.old ≤ length words.now }
        requires numbered { self.old.items < 2 ^ 32 }
        ensures read { OnOk result
            (listed self.old.capacity (read_copy WORDS (λ x cs. nat_lt x self.old.items)) at.old
            (drop at.old words.now)
            ≡ Ok (record { value = map copy_value self.new.list; at = at.new; rest = drop at.new words.now })) }
        ensures refused { IfErr result
            (λ e. listed self.old.capacity (read_copy WORDS (λ x cs. nat_lt x self.old.items)) at.old
            (drop at.old words.now)
            ≡ Err e) }
        ensures inside { at.new ≤ length words.now }
        ensures capacity { self.new.capacity ≡ self.old.capacity }
        ensures items { self.new.items ≡ self.old.items }
    {
        let count = word_to(words, at, self.capacity())?;
        self.clear();
        for _number in 0..count {
            self.read_copy(words, at)?;
        }
        Ok(())
    }
}

impl<const WORDS: usize> Queue<DownEntry<WORDS>> {
    /// Reads one entry more, of a down list at this level.
    fn read_entry(&mut self, words: &[u32], at: &mut u32, level: u32) -> Result<(), StateRefusal>
        requires few { length words.now < 2 ^ 32 }
        requires inside { at.old ≤ length words.now }
        requires numbered { self.old.items < 2 ^ 32 }
        requires place { nat_le self.old.capacity (length self.old.list) ≡ false }
        ensures read { OnOk result
            (read_down self.old.items level WORDS self.old.list at.old (drop at.old words.now)
            ≡ Ok (record { value = self.new.list; at = at.new; rest = drop at.new words.now })) }
        ensures refused { IfErr result (λ e. read_down self.old.items level WORDS self.old.list at.old (drop at.old words.now) ≡ Err e) }
        ensures inside { at.new ≤ length words.now }
        ensures more { OnOk result (length self.new.list ≡ length self.old.list + 1) }
        ensures capacity { self.new.capacity ≡ self.old.capacity }
        ensures items { self.new.items ≡ self.old.items }
    {
        let kind = kind_of(word_from_1(words, at, 5)?);
        let item = ItemId(word_below(words, at, self.counts().len() as u32)?);
        let stamp = stamp_words(words, at, level)?;
        let copy = item_words(words, at, brings_copy(kind))?;
        self.put(DownEntry {
            kind,
            item,
            words: copy,
            stamp,
        });
        Ok(())
    }

    /// Reads its entries, those of a down list at this level, with how many there are before them, in place of those that it has.
    #[tactic(auto, using(state_reading::proofs::Steps::times_begun))]
    pub fn read_entries(
        &mut self,
        words: &[u32],
        at: &mut u32,
        level: u32,
    ) -> Result<(), StateRefusal>
        requires few { length words.now < 2 ^ 32 }
        requires inside { at.old ≤ length words.now }
        requires numbered { self.old.items < 2 ^ 32 }
        ensures read { OnOk result
            (listed self.old.capacity (read_down self.old.items level WORDS) at.old (drop at.old words.now)
            ≡ Ok (record { value = self.new.list; at = at.new; rest = drop at.new words.now })) }
        ensures refused { IfErr result
            (λ e. listed self.old.capacity (read_down self.old.items level WORDS) at.old (drop at.old words.now)
            ≡ Err e) }
        ensures inside { at.new ≤ length words.now }
        ensures capacity { self.new.capacity ≡ self.old.capacity }
        ensures items { self.new.items ≡ self.old.items }
    {
        let count = word_to(words, at, self.capacity())?;
        self.clear();
        for _number in 0..count {
            self.read_entry(words, at, level)?;
        }
        Ok(())
    }
}
