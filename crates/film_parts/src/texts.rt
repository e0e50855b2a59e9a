//! The texts of values, put at the end of bytes.

ghost use Rattle.std.specs.Prelude.{◌++◌, codes, decimal, flat_map, OnOk, Some};
ghost use Rattle.film_parts.specs.DdmText.Adds.{Adds};
ghost use Rattle.film_parts.specs.DdmText.Hex.{hex8};
ghost use Rattle.film_model.specs.Leaf.{entry_words, register_text, stopped_text, way_text};
ghost use Rattle.film_model.specs.Directory.{count_text};
ghost use Rattle.film_model.specs.Part.{number_text, stamp_text};
ghost use Rattle.film_model.specs.Still.{place_text};
ghost use Rattle.text_model.specs.Report.{letter_text, word_texts};
ghost use Rattle.text_model.specs.Words.{halt_text, kind_text};

use crate::of_ddm_text::{push_decimal, push_hex8};
use crate::of_ddm_types::{HaltCause, LeafState, NoMemory, TxKind};
use crate::of_tree_model::CopyPlace;

/// Puts these bytes at the end.
pub(crate) fn push_bytes(out: &mut Vec<u8>, bytes: &[u8]) -> Result<(), NoMemory>
    ensures { OnOk result (Adds out.old.items out.new.items bytes.now) }
{
    out.extend_from_slice(bytes)?;
    Ok(())
}

/// Puts a space and a number at the end.
#[tactic(auto, unfolding(film_model::specs::Part::number_text))]
pub(crate) fn push_number(out: &mut Vec<u8>, n: u32) -> Result<(), NoMemory>
    ensures { OnOk result (Adds out.old.items out.new.items (number_text n)) }
{
    push_bytes(out, b" ")?;
    push_decimal(out, u64::from(n))
}

/// Puts a space and the eight digits of a word at the end.
pub(crate) fn push_word(out: &mut Vec<u8>, word: u32) -> Result<(), NoMemory>
    ensures { OnOk result (Adds out.old.items out.new.items (codes " " ++ hex8 word)) }
{
    push_bytes(out, b" ")?;
    push_hex8(out, word)
}

/// Puts a space and eight digits for each word at the end.
#[tactic(auto, unfolding(text_model::specs::Report::word_texts))]
pub(crate) fn push_words(out: &mut Vec<u8>, words: &[u32]) -> Result<(), NoMemory>
    ensures { OnOk result (Adds out.old.items out.new.items (word_texts words.now)) }
{
    'words: for word in words {
        push_word(out, *word)?;
    }
    Ok(())
}

// Puts numbers at the end, each after a full stop.
fn push_dotted(out: &mut Vec<u8>, numbers: &[u32]) -> Result<(), NoMemory>
    ensures { OnOk result (Adds out.old.items out.new.items (flat_map (λ k. codes "." ++ decimal k) numbers.now)) }
{
    'numbers: for number in numbers {
        push_bytes(out, b".")?;
        push_decimal(out, u64::from(*number))?;
    }
    Ok(())
}

/// Puts at the end a space and numbers with full stops between them.
#[tactic(auto, unfolding(film_model::specs::Part::stamp_text))]
pub(crate) fn push_stamp(out: &mut Vec<u8>, numbers: &[u32]) -> Result<(), NoMemory>
    ensures { OnOk result (Adds out.old.items out.new.items (stamp_text numbers.now)) }
{
    match numbers.split_first() {
        Some((first, rest)) => {
            push_number(out, *first)?;
            push_dotted(out, rest)
        }
        None => Ok(()),
    }
}

/// Puts a number at the end, but nothing for 0.
#[tactic(auto, unfolding(film_model::specs::Directory::count_text))]
pub(crate) fn push_count(out: &mut Vec<u8>, n: u32) -> Result<(), NoMemory>
    ensures { OnOk result (Adds out.old.items out.new.items (count_text n)) }
{
    if n == 0 { Ok(()) } else { push_number(out, n) }
}

/// Puts the word of a register at the end, but nothing for 0.
#[tactic(auto, unfolding(film_model::specs::Leaf::register_text))]
pub(crate) fn push_register(out: &mut Vec<u8>, word: u32) -> Result<(), NoMemory>
    ensures { OnOk result (Adds out.old.items out.new.items (register_text word)) }
{
    if word == 0 {
        Ok(())
    } else {
        push_word(out, word)
    }
}

/// Puts a kind of transaction at the end.
#[tactic(auto, unfolding(text_model::specs::Words::kind_text))]
pub(crate) fn push_kind(out: &mut Vec<u8>, kind: TxKind) -> Result<(), NoMemory>
    ensures { OnOk result (Adds out.old.items out.new.items (kind_text kind)) }
{
    match kind {
        TxKind::ReadTx => push_bytes(out, b"read"),
        TxKind::DataTx => push_bytes(out, b"data"),
        TxKind::EraseTx => push_bytes(out, b"erase"),
        TxKind::ExclusiveTx => push_bytes(out, b"exclusive"),
        TxKind::InjectTx => push_bytes(out, b"inject"),
        TxKind::OutTx => push_bytes(out, b"out"),
    }
}

// Puts a name and a number at the end.
fn push_named(out: &mut Vec<u8>, name: &[u8], n: u32) -> Result<(), NoMemory>
    ensures { OnOk result (Adds out.old.items out.new.items (name.now ++ decimal n)) }
{
    push_bytes(out, name)?;
    push_decimal(out, u64::from(n))
}

// Puts a name and the eight digits of a word at the end.
fn push_named_word(out: &mut Vec<u8>, name: &[u8], word: u32) -> Result<(), NoMemory>
    ensures { OnOk result (Adds out.old.items out.new.items (name.now ++ hex8 word)) }
{
    push_bytes(out, name)?;
    push_hex8(out, word)
}

// Puts at the end why a hart stopped for good.
#[tactic(auto, unfolding(text_model::specs::Words::halt_text))]
fn push_halt(out: &mut Vec<u8>, cause: HaltCause) -> Result<(), NoMemory>
    ensures { OnOk result (Adds out.old.items out.new.items (halt_text cause)) }
{
    match cause {
        HaltCause::Exit(code) => push_named(out, b"exit ", code),
        HaltCause::Illegal(word) => push_named_word(out, b"illegal ", word),
        HaltCause::Breakpoint => push_bytes(out, b"break"),
        HaltCause::UnknownCall(number) => push_named(out, b"call ", number),
        HaltCause::MisalignedTarget(address) => push_named_word(out, b"badtarget ", address),
        HaltCause::FetchOutside(address) => push_named_word(out, b"nofetch ", address),
        HaltCause::MisalignedAccess(address) => push_named_word(out, b"misaligned ", address),
        HaltCause::LoadOutside(address) => push_named_word(out, b"noload ", address),
        HaltCause::StoreOutside(address) => push_named_word(out, b"nostore ", address),
    }
}

/// Puts at the end why a hart stopped, and nothing while it runs.
#[tactic(auto, unfolding(film_model::specs::Leaf::stopped_text))]
pub(crate) fn push_stopped(out: &mut Vec<u8>, halt: Option<HaltCause>) -> Result<(), NoMemory>
    ensures { OnOk result (Adds out.old.items out.new.items (stopped_text halt)) }
{
    match halt {
        None => Ok(()),
        Some(cause) => {
            push_bytes(out, b" ")?;
            push_halt(out, cause)
        }
    }
}

/// Puts the letter of a state at the end.
#[tactic(auto, unfolding(text_model::specs::Report::letter_text))]
pub(crate) fn push_letter(out: &mut Vec<u8>, state: LeafState) -> Result<(), NoMemory>
    ensures { OnOk result (Adds out.old.items out.new.items (letter_text (Some state))) }
{
    match state {
        LeafState::Shared => push_bytes(out, b"S"),
        LeafState::Exclusive => push_bytes(out, b"E"),
        LeafState::Reading => push_bytes(out, b"R"),
        LeafState::Waiting => push_bytes(out, b"W"),
        LeafState::ReadingWaiting => push_bytes(out, b"B"),
    }
}

/// Puts the words of an entry at the end, if one in this state has words.
#[tactic(auto, unfolding(film_model::specs::Leaf::entry_words))]
pub(crate) fn push_entry_words(
    out: &mut Vec<u8>,
    state: LeafState,
    words: &[u32],
) -> Result<(), NoMemory>
    ensures { OnOk result (Adds out.old.items out.new.items (entry_words state words.now)) }
{
    match state {
        LeafState::Shared | LeafState::Exclusive | LeafState::Waiting => push_words(out, words),
        LeafState::Reading | LeafState::ReadingWaiting => Ok(()),
    }
}

/// Puts an entry in a way at the end: its state, its way and its words.
#[tactic(auto, unfolding(film_model::specs::Leaf::way_text))]
pub(crate) fn push_way(
    out: &mut Vec<u8>,
    state: LeafState,
    way: u32,
    words: &[u32],
) -> Result<(), NoMemory>
    ensures { OnOk result (Adds out.old.items out.new.items (way_text (Some (record { way = way; state = state; words = words.now })))) }
{
    push_bytes(out, b" ")?;
    push_letter(out, state)?;
    push_number(out, way)?;
    push_entry_words(out, state, words)
}

/// Puts at the end where a copy is, without the place in the leaf or in the list.
#[tactic(auto, unfolding(film_model::specs::Still::place_text))]
pub(crate) fn push_place(out: &mut Vec<u8>, place: CopyPlace) -> Result<(), NoMemory>
    ensures { OnOk result (Adds out.old.items out.new.items (place_text (Some place))) }
{
    match place {
        CopyPlace::LeafWay { leaf, .. } | CopyPlace::LeafBuffer { leaf, .. } => {
            push_bytes(out, b" leaf")?;
            push_number(out, leaf.0)
        }
        CopyPlace::Parking { bus, .. } => {
            push_bytes(out, b" bus")?;
            push_number(out, bus.0)?;
            push_bytes(out, b" parking")
        }
        CopyPlace::DownList { bus, .. } => {
            push_bytes(out, b" bus")?;
            push_number(out, bus.0)?;
            push_bytes(out, b" down")
        }
    }
}
