//! The words of the top are read back.

ghost use Rattle.std.specs.Prelude.{◌<◌, ◌≤◌, ◌^◌, drop, length, IfOk};
ghost use Rattle.top_node.specs.StateReading.Gives.{IsRead};
ghost use Rattle.top_node.specs.StateReading.Parts.{read_dir};

use crate::of_state_reading::{StateRefusal, count_word, stamp_words, word_to};
use crate::state::TopState;

impl<const WORDS: usize> TopState<WORDS> {
    /// Reads its words, from number `from` on, in place of all that it has, where bus 0 has so many children. Gives the number of
    /// the word behind them. After a refusal it has some of them. Its epoch is 0; it has no requests, replies and parked copies,
    /// and keeps no place.
    pub fn read_part(
        &mut self,
        words: &[u32],
        from: u32,
        children: u32,
    ) -> Result<u32, StateRefusal>
        requires few { length words.now < 2 ^ 32 }
        requires inside { from ≤ length words.now }
        requires children { children ≤ 16 }
        ensures read { IsRead (read_dir (length self.old.items) children self.old from (drop from words.now)) words.now self.new result }
        ensures inside { IfOk result (λ at. at ≤ length words.now) }
    {
        let mut at = from;
        self.count = count_word(words, &mut at)?;
        stamp_words(words, &mut at, 0)?;
        self.kept.read(words, &mut at, children, true)?;
        self.down.read_entries(words, &mut at, 0)?;
        let _requests = word_to(words, &mut at, 0)?;
        let _replies = word_to(words, &mut at, 0)?;
        let _parked = word_to(words, &mut at, 0)?;
        let _reserved = word_to(words, &mut at, 0)?;
        Ok(at)
    }
}
