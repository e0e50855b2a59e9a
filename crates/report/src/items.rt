//! The line of an item.

ghost use Rattle.std.specs.Prelude.{◌≡◌, ◌+◌, ◌*◌, ◌∷◌, ◌++◌, [], OnOk, Some, codes, decimal, length};
ghost use Rattle.report.specs.DdmText.Adds.{Adds};
ghost use Rattle.text_model.specs.Report.{copy_place_text, letter_text};
ghost use Rattle.report.specs.LineParts.{item_front};
ghost use Rattle.report.specs.Room.{UsesRoom};

use crate::buffers::TextBuffer;
use crate::digits::push_spaced_hex8;
use crate::numbers::{push_bus, push_item, push_named_leaf};
use crate::of_ddm_types::{ItemId, LeafNo, LeafState, NoMemory};
use crate::of_tree_model::CopyPlace;
use crate::pieces::{push_bytes, push_named, push_number, push_words};

/// Puts at the end where an item's current copy is.
#[tactic(auto, unfolding(text_model::specs::Report::copy_place_text))]
pub fn push_copy_place<W: TextBuffer>(out: &mut W, place: CopyPlace) -> Result<(), NoMemory>
    ensures text { OnOk result (Adds (W.text out.old) (W.text out.new) (copy_place_text place)) }
    ensures room { UsesRoom 53 (W.room out.old) (W.room out.new) result }
{
    match place {
        CopyPlace::LeafWay { leaf, way } => {
            push_named_leaf(out, b"leaf ", leaf)?;
            push_named(out, b" way ", way)
        }
        CopyPlace::LeafBuffer { leaf, place } => {
            push_named_leaf(out, b"leaf ", leaf)?;
            push_named(out, b" buffer ", place)
        }
        CopyPlace::Parking { bus, place } => {
            push_bytes(out, b"bus ")?;
            push_bus(out, bus)?;
            push_named(out, b" parking ", place)
        }
        CopyPlace::DownList { bus, place } => {
            push_bytes(out, b"bus ")?;
            push_bus(out, bus)?;
            push_named(out, b" down ", place)
        }
    }
}

/// The letter for the state of an entry.
#[tactic(auto, unfolding(text_model::specs::Report::letter_text))]
pub(crate) fn letter(state: LeafState) -> u8
    ensures { letter_text (Some state) ≡ result ∷ [] }
{
    match state {
        LeafState::Shared => b'S',
        LeafState::Exclusive => b'E',
        LeafState::Reading => b'R',
        LeafState::Waiting => b'W',
        LeafState::ReadingWaiting => b'B',
    }
}

/// Puts at the end the letter for a leaf's entry of an item.
#[tactic(auto, unfolding(text_model::specs::Report::letter_text))]
pub fn push_letter<W: TextBuffer>(out: &mut W, state: Option<LeafState>) -> Result<(), NoMemory>
    ensures text { OnOk result (Adds (W.text out.old) (W.text out.new) (letter_text state)) }
    ensures room { UsesRoom 1 (W.room out.old) (W.room out.new) result }
{
    match state {
        None => push_bytes(out, b"-"),
        Some(state) => push_bytes(out, &[letter(state)]),
    }
}

// A way of a leaf between two spaces. Numbers of one digit, as mostly, are put at once with the words.
fn push_leaf_way<W: TextBuffer>(out: &mut W, leaf: LeafNo, way: u32) -> Result<(), NoMemory>
    ensures text { OnOk result (Adds (W.text out.old) (W.text out.new)
        (codes " leaf " ++ decimal leaf ++ codes " way " ++ decimal way ++ codes " ")) }
    ensures room { UsesRoom 55 (W.room out.old) (W.room out.new) result }
{
    if leaf.0 < 10 && way < 10 {
        let first = b'0' + leaf.0 as u8;
        let second = b'0' + way as u8;
        return out.put(&[
            b' ', b'l', b'e', b'a', b'f', b' ', first, b' ', b'w', b'a', b'y', b' ', second, b' ',
        ]);
    }
    push_bytes(out, &[b' ', b'l', b'e', b'a', b'f', b' '])?;
    push_number(out, leaf.0)?;
    push_bytes(out, &[b' ', b'w', b'a', b'y', b' '])?;
    push_number(out, way)?;
    push_bytes(out, &[b' '])
}

// Where an item's current copy is, between two spaces. Mostly it is in a way of a leaf.
#[inline(always)]
#[tactic(auto, unfolding(text_model::specs::Report::copy_place_text))]
fn push_place_between<W: TextBuffer>(out: &mut W, place: CopyPlace) -> Result<(), NoMemory>
    ensures text { OnOk result (Adds (W.text out.old) (W.text out.new)
        (codes " " ++ copy_place_text place ++ codes " ")) }
    ensures room { UsesRoom 55 (W.room out.old) (W.room out.new) result }
{
    if let CopyPlace::LeafWay { leaf, way } = place {
        return push_leaf_way(out, leaf, way);
    }
    push_bytes(out, &[b' '])?;
    push_copy_place(out, place)?;
    push_bytes(out, &[b' '])
}

/// Puts at the end the line of an item up to the states of its entries.
#[tactic(auto, unfolding(crate::specs::LineParts::item_front))]
pub fn push_item_front<W: TextBuffer>(
    out: &mut W,
    item: ItemId,
    address: u32,
    words: &[u32],
    place: CopyPlace,
) -> Result<(), NoMemory>
    ensures text { OnOk result (Adds (W.text out.old) (W.text out.new) (item_front item address words.now place)) }
    ensures room { UsesRoom (89 + 9 * length words.now) (W.room out.old) (W.room out.new) result }
{
    push_bytes(out, &[b'i', b't', b'e', b'm', b' '])?;
    push_item(out, item)?;
    push_spaced_hex8(out, address)?;
    push_words(out, words)?;
    push_place_between(out, place)?;
    Ok(())
}
