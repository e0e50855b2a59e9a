//! Bytes, numbers and words at the end of a text.

ghost use Rattle.std.specs.Prelude.{◌+◌, ◌*◌, ◌++◌, OnOk, codes, decimal, length};
ghost use Rattle.report.specs.DdmText.Adds.{Adds};
ghost use Rattle.report.specs.DdmText.Hex.{hex8};
ghost use Rattle.text_model.specs.Report.{word_texts};
ghost use Rattle.report.specs.Room.{UsesRoom};

use crate::buffers::TextBuffer;
use crate::digits::{hex8_digits, push_decimal, push_hex8, push_spaced_hex8};
use crate::of_ddm_types::NoMemory;

/// Puts these bytes at the end.
#[inline(always)]
pub fn push_bytes<W: TextBuffer>(out: &mut W, text: &[u8]) -> Result<(), NoMemory>
    ensures text { OnOk result (Adds (W.text out.old) (W.text out.new) text.now) }
    ensures room { UsesRoom (length text.now) (W.room out.old) (W.room out.new) result }
{
    out.put(text)
}

/// Puts the decimal digits of a number at the end.
#[inline(always)]
pub fn push_number<W: TextBuffer>(out: &mut W, n: u32) -> Result<(), NoMemory>
    ensures text { OnOk result (Adds (W.text out.old) (W.text out.new) (decimal n)) }
    ensures room { UsesRoom 20 (W.room out.old) (W.room out.new) result }
{
    push_decimal(out, u64::from(n))
}

/// Puts a number with a name before it at the end.
pub fn push_named<W: TextBuffer>(out: &mut W, name: &[u8], n: u32) -> Result<(), NoMemory>
    ensures text { OnOk result (Adds (W.text out.old) (W.text out.new) (name.now ++ decimal n)) }
    ensures room { UsesRoom (length name.now + 20) (W.room out.old) (W.room out.new) result }
{
    push_bytes(out, name)?;
    push_number(out, n)
}

/// Puts the eight hexadecimal digits of a word with a name before it at the end.
#[inline(always)]
pub fn push_named_word<W: TextBuffer>(out: &mut W, name: &[u8], word: u32) -> Result<(), NoMemory>
    ensures text { OnOk result (Adds (W.text out.old) (W.text out.new) (name.now ++ hex8 word)) }
    ensures room { UsesRoom (length name.now + 8) (W.room out.old) (W.room out.new) result }
{
    push_bytes(out, name)?;
    push_hex8(out, word)
}

// Puts two words at the end at once, each behind a space.
#[inline(always)]
fn push_two_words<W: TextBuffer>(out: &mut W, first: u32, second: u32) -> Result<(), NoMemory>
    ensures text { OnOk result (Adds (W.text out.old) (W.text out.new)
        (codes " " ++ hex8 first ++ codes " " ++ hex8 second)) }
    ensures room { UsesRoom 18 (W.room out.old) (W.room out.new) result }
{
    let [a, b, c, d, e, f, g, h] = hex8_digits(first);
    let [i, j, k, l, m, n, o, p] = hex8_digits(second);
    out.put(&[b' ', a, b, c, d, e, f, g, h, b' ', i, j, k, l, m, n, o, p])
}

/// Puts a space and eight hexadecimal digits for each word at the end. Two words at a time are put with fewer tests
/// of the room than one.
pub fn push_words<W: TextBuffer>(out: &mut W, words: &[u32]) -> Result<(), NoMemory>
    ensures text { OnOk result (Adds (W.text out.old) (W.text out.new) (word_texts words.now)) }
    ensures room { UsesRoom (9 * length words.now) (W.room out.old) (W.room out.new) result }
{
    let mut at = 0;
    'words: while at + 1 < words.len() {
        push_two_words(out, words[at], words[at + 1])?;
        at += 2;
    }
    if at < words.len() {
        push_spaced_hex8(out, words[at])?;
    }
    Ok(())
}
