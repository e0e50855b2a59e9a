//! The words of a parking are read back.

ghost use Rattle.std.specs.Prelude.{◌≡◌, ◌+◌, ◌<◌, ◌≤◌, ◌^◌, ◌&&◌, false, not, nat_lt, Ok, Err, drop, length, IfErr, IfOk, OnOk};
ghost use Rattle.std.specs.List.{All, list_any};
ghost use Rattle.replacement.specs.TreeModel.State.Leaf.{is_copy};
ghost use Rattle.state_reading.specs.Gives.{Gives};
ghost use Rattle.state_reading.specs.Reading.{word_that};
ghost use Rattle.state_reading.specs.Parts.{listed, read_copy};

use crate::of_ddm_types::{ItemId, Words};
use crate::parking::Parking;
use state_reading::{StateRefusal, item_words, keep, look, word_to};

impl<const WORDS: usize> Parking<WORDS> {
    /// Whether it has no copy of the item.
    #[tactic(auto, using(crate::proofs::Absent::has_copy, crate::proofs::Absent::has_none))]
    fn lacks(&self, item: ItemId) -> bool
        ensures { result ≡ not (list_any (is_copy item) self.now.list) }
    {
        match self.entries.found(item) {
            Some(_) => false,
            None => true,
        }
    }

    /// The next word, an item of which it has no copy.
    fn item_word(&self, words: &[u32], at: &mut u32, items: u32) -> Result<ItemId, StateRefusal>
        requires few { length words.now < 2 ^ 32 }
        requires inside { at.old ≤ length words.now }
        ensures read { Gives
            (word_that (λ x. nat_lt x items && not (list_any (is_copy x) self.now.list)) at.old
            (drop at.old words.now)) words.now at.new result }
        ensures below { IfOk result (λ x. x < items) }
        ensures lacks { IfOk result (λ x. list_any (is_copy x) self.now.list ≡ false) }
        ensures inside { at.new ≤ length words.now }
    {
        let item = look(words, *at)?;
        keep(item, item < items && self.lacks(ItemId(item)), at)?;
        Ok(ItemId(item))
    }

    /// Reads one copy more.
    #[tactic(auto, using(crate::proofs::Absent::absent_copy, crate::proofs::Absent::below_more))]
    fn read_copy(&mut self, words: &[u32], at: &mut u32, items: u32) -> Result<(), StateRefusal>
        requires words_fit { WORDS < 2 ^ 32 }
        requires few { length words.now < 2 ^ 32 }
        requires inside { at.old ≤ length words.now }
        requires place { length self.old.list + self.old.reserved < self.old.capacity }
        requires below { All (λ c. c.item < items) self.old.list }
        ensures read { OnOk result
            (read_copy WORDS (λ x cs. nat_lt x items && not (list_any (is_copy x) cs)) self.old.list at.old
            (drop at.old words.now)
            ≡ Ok (record { value = self.new.list; at = at.new; rest = drop at.new words.now })) }
        ensures refused { IfErr result
            (λ e. read_copy WORDS (λ x cs. nat_lt x items && not (list_any (is_copy x) cs)) self.old.list at.old
            (drop at.old words.now)
            ≡ Err e) }
        ensures inside { at.new ≤ length words.now }
        ensures more { OnOk result (length self.new.list ≡ length self.old.list + 1) }
        ensures below { All (λ c. c.item < items) self.new.list }
        ensures capacity { self.new.capacity ≡ self.old.capacity }
        ensures reserved { self.new.reserved ≡ self.old.reserved }
    {
        let item = self.item_word(words, at, items)?;
        let copy = item_words(words, at, true)?;
        match self.put(item, copy) {
            Ok(()) => Ok(()),
            Err(_) => unreachable!(),
        }
    }

    /// Reads its copies, each of another one of so many items, with how many there are before them, in place of those that it has.
    /// No place is reserved then.
    #[tactic(auto, using(state_reading::proofs::Steps::times_begun))]
    pub fn read(&mut self, words: &[u32], at: &mut u32, items: u32) -> Result<(), StateRefusal>
        requires words_fit { WORDS < 2 ^ 32 }
        requires few { length words.now < 2 ^ 32 }
        requires inside { at.old ≤ length words.now }
        ensures read { OnOk result
            (listed self.old.capacity
            (read_copy WORDS (λ x cs. nat_lt x items && not (list_any (is_copy x) cs))) at.old
            (drop at.old words.now)
            ≡ Ok (record { value = self.new.list; at = at.new; rest = drop at.new words.now })) }
        ensures refused { IfErr result
            (λ e. listed self.old.capacity
            (read_copy WORDS (λ x cs. nat_lt x items && not (list_any (is_copy x) cs))) at.old
            (drop at.old words.now)
            ≡ Err e) }
        ensures inside { at.new ≤ length words.now }
        ensures below { All (λ c. c.item < items) self.new.list }
        ensures capacity { self.new.capacity ≡ self.old.capacity }
        ensures reserved { self.new.reserved ≡ 0 }
    {
        self.clear();
        let count = word_to(words, at, self.capacity())?;
        for _number in 0..count {
            self.read_copy(words, at, items)?;
        }
        Ok(())
    }
}
