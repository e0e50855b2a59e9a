//! Single words of a checkpoint are read.

ghost use Rattle.std.specs.Prelude.{◌≡◌, ◌<◌, ◌≤◌, ◌+◌, ◌∷◌, ◌^◌, true, false, [], drop, length, nat_eq, nat_le};
ghost use Rattle.std.specs.Prelude.{nat_lt, ◌||◌, OnOk, IfOk, IfErr, Ok, Err, ◌&&◌};
ghost use Rattle.state_reading.specs.DdmTypes.Keys.{stamp_zero};
ghost use Rattle.state_reading.specs.declared.StateRefusal.TheVariants.{BadWord, Cut};
ghost use Rattle.state_reading.specs.Gives.{Gives};
ghost use Rattle.state_reading.specs.Reading.{any_word, word_that, words_that};
ghost use Rattle.state_reading.specs.Parts.{count_word, item_words, most_counted, stamp_words, word_below, word_from_1, word_if, word_to};

use crate::StateRefusal;
use crate::of_ddm_types::{Stamp, Words};

/// No count of a checkpoint is above this.
pub const MOST_COUNTED: u32 = 1_048_576;

/// The word with this number.
pub fn look(words: &[u32], at: u32) -> Result<u32, StateRefusal>
    requires few { length words.now < 2 ^ 32 }
    requires inside { at ≤ length words.now }
    ensures there { OnOk result (at < length words.now) }
    ensures word { IfOk result (λ w. drop at words.now ≡ w ∷ drop (at + 1) words.now) }
    ensures cut { IfErr result (λ e. (e ≡ Cut at) × (drop at words.now ≡ [])) }
{
    if at as usize == words.len() {
        return Err(StateRefusal::Cut(at));
    }
    Ok(words[at as usize])
}

/// Goes past a word that fits.
pub fn keep(word: u32, fits: bool, at: &mut u32) -> Result<u32, StateRefusal>
    requires { at.old + 1 < 2 ^ 32 }
    ensures ok { IfOk result (λ w. (w ≡ word) × (fits ≡ true) × (at.new ≡ at.old + 1)) }
    ensures err { IfErr result (λ e. (e ≡ BadWord at.old) × (fits ≡ false) × (at.new ≡ at.old)) }
{
    if !fits {
        return Err(StateRefusal::BadWord(*at));
    }
    *at += 1;
    Ok(word)
}

/// The next word, whatever it is.
pub fn any_word(words: &[u32], at: &mut u32) -> Result<u32, StateRefusal>
    requires few { length words.now < 2 ^ 32 }
    requires inside { at.old ≤ length words.now }
    ensures read { Gives (word_that any_word at.old (drop at.old words.now)) words.now at.new result }
    ensures inside { at.new ≤ length words.now }
{
    let word = look(words, *at)?;
    keep(word, true, at)
}

/// The next word, up to `most`.
pub fn word_to(words: &[u32], at: &mut u32, most: u32) -> Result<u32, StateRefusal>
    requires few { length words.now < 2 ^ 32 }
    requires inside { at.old ≤ length words.now }
    ensures read { Gives (word_to most at.old (drop at.old words.now)) words.now at.new result }
    ensures most { IfOk result (λ w. w ≤ most) }
    ensures inside { at.new ≤ length words.now }
{
    let word = look(words, *at)?;
    keep(word, word <= most, at)
}

/// The next word, which counts something.
pub fn count_word(words: &[u32], at: &mut u32) -> Result<u32, StateRefusal>
    requires few { length words.now < 2 ^ 32 }
    requires inside { at.old ≤ length words.now }
    ensures read { Gives (count_word at.old (drop at.old words.now)) words.now at.new result }
    ensures inside { at.new ≤ length words.now }
{
    word_to(words, at, MOST_COUNTED)
}

/// The next word, below `bound`: the number of an item, a leaf, a way or a child.
pub fn word_below(words: &[u32], at: &mut u32, bound: u32) -> Result<u32, StateRefusal>
    requires few { length words.now < 2 ^ 32 }
    requires inside { at.old ≤ length words.now }
    ensures read { Gives (word_below bound at.old (drop at.old words.now)) words.now at.new result }
    ensures below { IfOk result (λ w. w < bound) }
    ensures inside { at.new ≤ length words.now }
{
    let word = look(words, *at)?;
    keep(word, word < bound, at)
}

/// The next word, from 1 up to `most`.
pub fn word_from_1(words: &[u32], at: &mut u32, most: u32) -> Result<u32, StateRefusal>
    requires few { length words.now < 2 ^ 32 }
    requires inside { at.old ≤ length words.now }
    ensures read { Gives (word_from_1 most at.old (drop at.old words.now)) words.now at.new result }
    ensures most { IfOk result (λ w. w ≤ most) }
    ensures inside { at.new ≤ length words.now }
{
    let word = look(words, *at)?;
    keep(word, 1 <= word && word <= most, at)
}

/// The next word, which is 0 unless it means something.
pub fn word_if(words: &[u32], at: &mut u32, means: bool) -> Result<u32, StateRefusal>
    requires few { length words.now < 2 ^ 32 }
    requires inside { at.old ≤ length words.now }
    ensures read { Gives (word_if means at.old (drop at.old words.now)) words.now at.new result }
    ensures zero { means ≡ false → IfOk result (λ w. w ≡ 0) }
    ensures inside { at.new ≤ length words.now }
{
    let word = look(words, *at)?;
    keep(word, means || word == 0, at)
}

/// The next words, as many as there are places for them, each 0 unless they mean something.
pub fn words_if(
    words: &[u32],
    at: &mut u32,
    means: bool,
    into: &mut [u32],
) -> Result<(), StateRefusal>
    requires few { length words.now < 2 ^ 32 }
    requires inside { at.old ≤ length words.now }
    ensures read { OnOk result
        (words_that (λ w. means || nat_eq w 0) (length into.old) at.old (drop at.old words.now)
        ≡ Ok (record { value = into.new; at = at.new; rest = drop at.new words.now })) }
    ensures refused { IfErr result (λ e. words_that (λ w. means || nat_eq w 0) (length into.old) at.old (drop at.old words.now) ≡ Err e) }
    ensures inside { at.new ≤ length words.now }
{
    for place in 0..into.len() {
        into[place] = word_if(words, at, means)?;
    }
    Ok(())
}

/// The words of an item, which are 0 where it has none.
pub fn item_words<const WORDS: usize>(
    words: &[u32],
    at: &mut u32,
    has: bool,
) -> Result<Words<WORDS>, StateRefusal>
    requires few { length words.now < 2 ^ 32 }
    requires inside { at.old ≤ length words.now }
    ensures read { Gives (item_words has WORDS at.old (drop at.old words.now)) words.now at.new result }
    ensures inside { at.new ≤ length words.now }
{
    let mut read = [0; WORDS];
    words_if(words, at, has, &mut read)?;
    Ok(Words { w: read })
}

/// A stamp, in which the numbers from this level on are 0.
pub fn stamp_words(words: &[u32], at: &mut u32, level: u32) -> Result<Stamp, StateRefusal>
    requires few { length words.now < 2 ^ 32 }
    requires inside { at.old ≤ length words.now }
    ensures read { Gives (stamp_words level at.old (drop at.old words.now)) words.now at.new result }
    ensures zero { level ≡ 0 → IfOk result (λ s. s ≡ stamp_zero) }
    ensures inside { at.new ≤ length words.now }
{
    let s0 = word_if(words, at, 0 < level)?;
    let s1 = word_if(words, at, 1 < level)?;
    let s2 = word_if(words, at, 2 < level)?;
    let s3 = word_if(words, at, 3 < level)?;
    let stamp = Stamp::zero().at_level(0, s0).at_level(1, s1);
    Ok(stamp.at_level(2, s2).at_level(3, s3))
}
