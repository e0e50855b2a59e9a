//! The lists in the words of a leaf or of a directory, as text.

ghost use Rattle.std.specs.Prelude.{◌≡◌, ◌<◌, ℕ, List, ◌++◌, codes, drop, length, slice_index, take, OnOk};
ghost use Rattle.std.specs.List.{AllByRecursion};
ghost use Rattle.film_parts.specs.DdmText.Adds.{Adds};
ghost use Rattle.film_parts.specs.Puts.{Puts};
ghost use Rattle.film_parts.specs.DdmTypes.declared.keys.Stamp.{Stamp};
ghost use Rattle.film_parts.specs.Forms.{IsWide, IsWideStanding};
ghost use Rattle.film_parts.specs.StateWords.Numbers.{stamp_words};
ghost use Rattle.film_parts.specs.StateWords.Parts.{StandingValue, buffer_words, counted, down_words, item_and_words};
ghost use Rattle.film_parts.specs.StateWords.Parts.{request_words, standing_words};
ghost use Rattle.film_parts.specs.TreeModel.State.Values.{BufferValue, CopyValue, DownValue, RequestValue};
ghost use Rattle.film_parts.specs.ValueLaws.Values.{BufferHasForm, CopyHasForm};
ghost use Rattle.film_model.specs.Directory.{down_text, down_words as told_words, told_stamp};
ghost use Rattle.film_model.specs.Leaf.{buffer_text, copy_text, request_text};
ghost use Rattle.film_model.specs.Part.{listed, number_text};
ghost use Rattle.text_model.specs.Report.{word_texts};

use crate::cursor::StateWords;
use crate::numbers::{kind_by, state_by};
use crate::of_ddm_types::{NoMemory, TxKind};
use crate::texts::{
    push_bytes, push_entry_words, push_kind, push_letter, push_number, push_stamp, push_words,
};

// Puts the next word at the end as a number.
fn push_next_number(out: &mut Vec<u8>, words: &mut StateWords<'_>) -> Result<(), NoMemory>
    ensures text { OnOk result (Adds out.old.items out.new.items (number_text (slice_index words.old 0))) }
    ensures left { words.new ≡ drop 1 words.old }
{
    let number = words.next();
    push_number(out, number)
}

// Puts the next words at the end as the words of an item.
fn push_next_words(
    out: &mut Vec<u8>,
    words: &mut StateWords<'_>,
    width: usize,
) -> Result<(), NoMemory>
    ensures text { OnOk result (Adds out.old.items out.new.items (word_texts (take width words.old))) }
    ensures left { words.new ≡ drop width words.old }
{
    push_words(out, words.take(width))
}

// Puts a copy at the end, as an entry of a list.
fn push_copy(out: &mut Vec<u8>, words: &mut StateWords<'_>, width: usize) -> Result<(), NoMemory>
    ensures { (c : CopyValue) (rest : List ℕ) → words.old ≡ item_and_words c ++ rest → CopyHasForm width c →
        OnOk result (Puts out.old.items out.new.items (codes " |" ++ copy_text c) words.new rest) }
{
    push_bytes(out, b" |")?;
    push_next_number(out, words)?;
    push_next_words(out, words, width)?;
    Ok(())
}

/// Puts the next list at the end, whose entries are copies.
pub(crate) fn push_copies(
    out: &mut Vec<u8>,
    words: &mut StateWords<'_>,
    width: usize,
) -> Result<(), NoMemory>
    ensures { (cs : List CopyValue) (rest : List ℕ) → words.old ≡ counted item_and_words cs ++ rest →
        AllByRecursion (CopyHasForm width) cs →
        OnOk result (Puts out.old.items out.new.items (listed copy_text cs) words.new rest) }
{
    let count = words.next();
    'entries: for _place in 0..count {
        push_copy(out, words, width)?;
    }
    Ok(())
}

// Puts a request at the end, as an entry of a list.
fn push_request(out: &mut Vec<u8>, words: &mut StateWords<'_>) -> Result<(), NoMemory>
    ensures { (r : RequestValue) (rest : List ℕ) → words.old ≡ request_words r ++ rest →
        OnOk result (Puts out.old.items out.new.items (codes " |" ++ request_text r) words.new rest) }
{
    push_bytes(out, b" |")?;
    push_bytes(out, b" ")?;
    let number = words.next();
    let kind = kind_by(number);
    push_kind(out, kind)?;
    push_next_number(out, words)?;
    Ok(())
}

/// Puts the next list at the end, whose entries are requests.
pub(crate) fn push_requests(out: &mut Vec<u8>, words: &mut StateWords<'_>) -> Result<(), NoMemory>
    ensures { (rs : List RequestValue) (rest : List ℕ) → words.old ≡ counted request_words rs ++ rest →
        OnOk result (Puts out.old.items out.new.items (listed request_text rs) words.new rest) }
{
    let count = words.next();
    'entries: for _place in 0..count {
        push_request(out, words)?;
    }
    Ok(())
}

// Puts an entry of a buffer at the end, as an entry of a list.
fn push_buffered(
    out: &mut Vec<u8>,
    words: &mut StateWords<'_>,
    width: usize,
) -> Result<(), NoMemory>
    ensures { (e : BufferValue) (rest : List ℕ) → words.old ≡ buffer_words e ++ rest → BufferHasForm width e →
        OnOk result (Puts out.old.items out.new.items (codes " |" ++ buffer_text e) words.new rest) }
{
    push_bytes(out, b" |")?;
    push_next_number(out, words)?;
    push_bytes(out, b" ")?;
    let number = words.next();
    let state = state_by(number);
    push_letter(out, state)?;
    let copy = words.take(width);
    push_entry_words(out, state, copy)?;
    Ok(())
}

/// Puts the next list at the end, whose entries are those of a buffer.
pub(crate) fn push_buffer(
    out: &mut Vec<u8>,
    words: &mut StateWords<'_>,
    width: usize,
) -> Result<(), NoMemory>
    ensures { (es : List BufferValue) (rest : List ℕ) → words.old ≡ counted buffer_words es ++ rest →
        AllByRecursion (BufferHasForm width) es →
        OnOk result (Puts out.old.items out.new.items (listed buffer_text es) words.new rest) }
{
    let count = words.next();
    'entries: for _place in 0..count {
        push_buffered(out, words, width)?;
    }
    Ok(())
}

// Puts the words of an entry at the end, if one of this kind comes with words.
#[tactic(auto, unfolding(film_model::specs::Directory::down_words))]
fn push_down_words(out: &mut Vec<u8>, kind: TxKind, copy: &[u32]) -> Result<(), NoMemory>
    ensures { OnOk result (Adds out.old.items out.new.items (told_words kind copy.now)) }
{
    match kind {
        TxKind::DataTx | TxKind::InjectTx => push_words(out, copy),
        TxKind::ReadTx | TxKind::EraseTx | TxKind::ExclusiveTx | TxKind::OutTx => Ok(()),
    }
}

/// The first numbers, so many or all that there are.
pub(crate) fn first_of(numbers: &[u32], count: usize) -> &[u32]
    ensures { result.now ≡ take count numbers.now }
{
    &numbers[..count.min(numbers.len())]
}

// Puts the first numbers of the stamp in the next words at the end.
fn push_told_stamp(
    out: &mut Vec<u8>,
    level: usize,
    words: &mut StateWords<'_>,
) -> Result<(), NoMemory>
    ensures { (stamp : Stamp) (rest : List ℕ) → words.old ≡ stamp_words stamp ++ rest →
        OnOk result (Puts out.old.items out.new.items (told_stamp level stamp) words.new rest) }
{
    let numbers = words.take(4);
    push_stamp(out, first_of(numbers, level))?;
    Ok(())
}

// Puts an entry of a down list at the end, as an entry of a list. There are so many buses above the one that it is over.
fn push_down(
    out: &mut Vec<u8>,
    level: usize,
    words: &mut StateWords<'_>,
    width: usize,
) -> Result<(), NoMemory>
    ensures { (e : DownValue) (rest : List ℕ) → words.old ≡ down_words e ++ rest → length e.words ≡ width →
        OnOk result (Puts out.old.items out.new.items (codes " |" ++ down_text level e) words.new rest) }
{
    push_bytes(out, b" |")?;
    push_bytes(out, b" ")?;
    let number = words.next();
    let kind = kind_by(number);
    push_kind(out, kind)?;
    push_next_number(out, words)?;
    push_told_stamp(out, level, words)?;
    let copy = words.take(width);
    push_down_words(out, kind, copy)?;
    Ok(())
}

/// Puts the next list at the end, whose entries are those of a down list.
pub(crate) fn push_down_list(
    out: &mut Vec<u8>,
    level: usize,
    words: &mut StateWords<'_>,
    width: usize,
) -> Result<(), NoMemory>
    ensures { (es : List DownValue) (rest : List ℕ) → words.old ≡ counted down_words es ++ rest →
        AllByRecursion (IsWide width) es →
        OnOk result (Puts out.old.items out.new.items (listed (down_text level) es) words.new rest) }
{
    let count = words.next();
    'entries: for _place in 0..count {
        push_down(out, level, words, width)?;
    }
    Ok(())
}

/// Passes over the next list, whose entries are in ways.
pub(crate) fn skip_standing(words: &mut StateWords<'_>, width: usize)
    requires { width < 4294967296 }
    ensures { (ss : List StandingValue) (rest : List ℕ) → words.old ≡ counted standing_words ss ++ rest →
        AllByRecursion (IsWideStanding width) ss → words.new ≡ rest }
{
    let count = words.next();
    'standing: for _place in 0..count {
        words.take(3 + width);
    }
}
