//! What a call on a part of the tree expects of the path that it is given.

ghost use Rattle.std.specs.Prelude.{◌≡◌, ◌≤◌, ◌<◌, ◌^◌, Ok, Err, drop, length, nat_eq, IfErr, OnOk};
ghost use Rattle.ddm_tree.specs.StateReading.Reading.{word_that};

use crate::of_state_reading::{StateRefusal, keep, look};

/// The next word, which has to be this one.
pub(crate) fn expect_word(words: &[u32], at: &mut u32, word: u32) -> Result<(), StateRefusal>
    requires few { length words.now < 2 ^ 32 }
    requires inside { at.old ≤ length words.now }
    ensures read { OnOk result
        (word_that (λ w. nat_eq w word) at.old (drop at.old words.now)
        ≡ Ok (record { value = word; at = at.new; rest = drop at.new words.now })) }
    ensures refused { IfErr result (λ e. word_that (λ w. nat_eq w word) at.old (drop at.old words.now) ≡ Err e) }
    ensures inside { at.new ≤ length words.now }
{
    let next = look(words, *at)?;
    keep(next, next == word, at)?;
    Ok(())
}
