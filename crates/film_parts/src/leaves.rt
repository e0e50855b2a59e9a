//! The parts of a leaf.

ghost use Rattle.std.specs.Prelude.{◌≡◌, ◌<◌, ℕ, List, [], ◌∷◌, ◌++◌, OnOk, Option, None, Some, codes, drop};
ghost use Rattle.std.specs.List.{AllByRecursion};
ghost use Rattle.film_parts.specs.Puts.{Tells};
ghost use Rattle.film_parts.specs.StateWords.Numbers.{reserved_word, slot_words};
ghost use Rattle.film_parts.specs.StateWords.Parts.{buffer_words, counted, item_and_words, leaf_words};
ghost use Rattle.film_parts.specs.TreeModel.State.Values.{BufferValue, CopyValue, LeafValue, RequestValue};
ghost use Rattle.film_parts.specs.ValueLaws.Values.{BufferHasForm, CopyHasForm, LeafHasForm, SlotHasForm};
ghost use Rattle.film_model.specs.Leaf.{buffer_text, copy_text, entry_part, hart_parts, leaf_list_parts};
ghost use Rattle.film_model.specs.Leaf.{register_part, reservation_text, slot_text, stopped_text};
ghost use Rattle.film_model.specs.Part.{key_of, listed, numbered};
ghost use Rattle.film_parts.specs.DdmText.Adds.{Adds};
ghost use Rattle.film_parts.specs.DdmText.Hex.{hex8};

use crate::cursor::StateWords;
use crate::lists::{push_buffer, push_copies, skip_standing};
use crate::of_ddm_types::{HaltCause, ItemId, LeafNo, LeafState, NoMemory, TxKind};
use crate::part_text::PartText;
use crate::still::Still;
use crate::texts::{
    push_bytes, push_kind, push_number, push_register, push_stopped, push_way, push_word,
};

// Adds the part of a hart's pc.
fn add_pc(still: &mut Still, part: &mut PartText, leaf: u32, pc: u32) -> Result<(), NoMemory>
    ensures { OnOk result (still.new ≡ still.old ++ record { key = key_of (codes "pc") leaf; value = codes " " ++ hex8 pc } ∷ []) }
{
    part.begin(b"pc", leaf)?;
    push_word(&mut part.value, pc)?;
    part.end(still)?;
    Ok(())
}

// Adds the part that says why a hart stopped.
fn add_halt(
    still: &mut Still,
    part: &mut PartText,
    leaf: u32,
    halt: Option<HaltCause>,
) -> Result<(), NoMemory>
    ensures { OnOk result (still.new ≡ still.old ++ record { key = key_of (codes "halt") leaf; value = stopped_text halt } ∷ []) }
{
    part.begin(b"halt", leaf)?;
    push_stopped(&mut part.value, halt)?;
    part.end(still)?;
    Ok(())
}

// Adds the part of a register.
fn add_register(
    still: &mut Still,
    part: &mut PartText,
    leaf: u32,
    number: u32,
    word: u32,
) -> Result<(), NoMemory>
    ensures { OnOk result (still.new ≡ still.old ++ register_part leaf number word ∷ []) }
{
    part.begin_one(b"reg", leaf, number)?;
    push_register(&mut part.value, word)?;
    part.end(still)?;
    Ok(())
}

// Adds the parts of all registers but x0.
fn add_registers(
    still: &mut Still,
    part: &mut PartText,
    leaf: u32,
    registers: &[u32; 32],
) -> Result<(), NoMemory>
    ensures { OnOk result (still.new ≡ still.old ++ numbered (register_part leaf) 1 (drop 1 registers.now)) }
{
    'registers: for number in 1..32 {
        add_register(still, part, leaf, number, registers[number as usize])?;
    }
    Ok(())
}

/// Adds the parts of a leaf's hart.
pub fn add_hart(
    still: &mut Still,
    part: &mut PartText,
    leaf: LeafNo,
    pc: u32,
    halt: Option<HaltCause>,
    registers: &[u32; 32],
) -> Result<(), NoMemory>
    ensures { (v : LeafValue) → v.number ≡ leaf →
        v.hart ≡ record { registers = registers.now; pc = pc; halt = halt } →
        OnOk result (still.new ≡ still.old ++ hart_parts v) }
{
    add_pc(still, part, leaf.0, pc)?;
    add_halt(still, part, leaf.0, halt)?;
    add_registers(still, part, leaf.0, registers)?;
    Ok(())
}

/// Adds the part of an item's entry in a way.
pub fn add_entry(
    still: &mut Still,
    part: &mut PartText,
    leaf: LeafNo,
    item: ItemId,
    state: LeafState,
    way: u32,
    words: &[u32],
) -> Result<(), NoMemory>
    ensures { OnOk result
        (still.new
        ≡ still.old ++ entry_part leaf item (Some (record { way = way; state = state; words = words.now }))
        ∷ []) }
{
    part.begin_one(b"entry", leaf.0, item.0)?;
    push_way(&mut part.value, state, way, words)?;
    part.end(still)?;
    Ok(())
}

/// Adds the part of an item that has no entry in a way.
#[tactic(auto, unfolding(film_model::specs::Leaf::way_text))]
pub fn add_no_entry(
    still: &mut Still,
    part: &mut PartText,
    leaf: LeafNo,
    item: ItemId,
) -> Result<(), NoMemory>
    ensures { OnOk result (still.new ≡ still.old ++ entry_part leaf item None ∷ []) }
{
    part.begin_one(b"entry", leaf.0, item.0)?;
    part.end(still)?;
    Ok(())
}

// Adds the part of a buffer, by the next words.
fn add_buffer(
    still: &mut Still,
    part: &mut PartText,
    leaf: u32,
    words: &mut StateWords<'_>,
    width: usize,
) -> Result<(), NoMemory>
    ensures { (es : List BufferValue) (rest : List ℕ) → words.old ≡ counted buffer_words es ++ rest →
        AllByRecursion (BufferHasForm width) es →
        OnOk result (Tells still.old still.new
        (record { key = key_of (codes "buffer") leaf; value = listed buffer_text es } ∷ [])
        words.new rest) }
{
    part.begin(b"buffer", leaf)?;
    push_buffer(&mut part.value, words, width)?;
    part.end(still)?;
    Ok(())
}

// Puts at the end what a slot asks for, by its two words.
#[tactic(auto, unfolding(film_model::specs::Leaf::slot_text, film_model::specs::Leaf::request_text))]
fn push_slot(out: &mut Vec<u8>, kind: u32, item: u32) -> Result<(), NoMemory>
    ensures { (slot : Option RequestValue) → kind ∷ item ∷ [] ≡ slot_words slot → SlotHasForm slot →
        OnOk result (Adds out.old.items out.new.items (slot_text slot)) }
{
    if kind == 0 {
        return Ok(());
    }
    let kind = if kind == 1 {
        TxKind::ReadTx
    } else {
        TxKind::EraseTx
    };
    push_bytes(out, b" ")?;
    push_kind(out, kind)?;
    push_number(out, item)
}

// Adds the part of a slot, by its two words.
fn add_slot(
    still: &mut Still,
    part: &mut PartText,
    leaf: u32,
    kind: u32,
    item: u32,
) -> Result<(), NoMemory>
    ensures { (slot : Option RequestValue) → kind ∷ item ∷ [] ≡ slot_words slot → SlotHasForm slot →
        OnOk result (still.new
        ≡ still.old ++ record { key = key_of (codes "slot") leaf; value = slot_text slot } ∷ []) }
{
    part.begin(b"slot", leaf)?;
    push_slot(&mut part.value, kind, item)?;
    part.end(still)?;
    Ok(())
}

// Adds the part of a leaf's replies, by the next words.
fn add_leaf_replies(
    still: &mut Still,
    part: &mut PartText,
    leaf: u32,
    words: &mut StateWords<'_>,
    width: usize,
) -> Result<(), NoMemory>
    ensures { (cs : List CopyValue) (rest : List ℕ) → words.old ≡ counted item_and_words cs ++ rest →
        AllByRecursion (CopyHasForm width) cs →
        OnOk result (Tells still.old still.new
        (record { key = key_of (codes "leafreplies") leaf; value = listed copy_text cs } ∷ [])
        words.new rest) }
{
    part.begin(b"leafreplies", leaf)?;
    push_copies(&mut part.value, words, width)?;
    part.end(still)?;
    Ok(())
}

// Puts the item of a reservation at the end, by its word.
#[tactic(auto, unfolding(film_model::specs::Leaf::reservation_text))]
fn push_reserved(out: &mut Vec<u8>, word: u32) -> Result<(), NoMemory>
    ensures { (reservation : Option ℕ) → word ≡ reserved_word reservation →
        OnOk result (Adds out.old.items out.new.items (reservation_text reservation)) }
{
    if word > 0 {
        return push_number(out, word - 1);
    }
    Ok(())
}

// Adds the part of a reservation, by its word.
fn add_reserved(
    still: &mut Still,
    part: &mut PartText,
    leaf: u32,
    word: u32,
) -> Result<(), NoMemory>
    ensures { (reservation : Option ℕ) → word ≡ reserved_word reservation →
        OnOk result (still.new
        ≡ still.old
        ++ record { key = key_of (codes "reserved") leaf; value = reservation_text reservation }
        ∷ []) }
{
    part.begin(b"reserved", leaf)?;
    push_reserved(&mut part.value, word)?;
    part.end(still)?;
    Ok(())
}

/// Adds the parts of what waits in a leaf and of its hart's reservation, by its words.
pub fn add_leaf_lists(
    still: &mut Still,
    part: &mut PartText,
    leaf: LeafNo,
    words: &mut StateWords<'_>,
    width: usize,
) -> Result<(), NoMemory>
    requires { width < 4294967296 }
    ensures { (v : LeafValue) (most : ℕ) → v.number ≡ leaf → words.old ≡ leaf_words v → LeafHasForm width most v →
        OnOk result (still.new ≡ still.old ++ leaf_list_parts v) }
{
    let reserved = words.next();
    let kind = words.next();
    let item = words.next();
    skip_standing(words, width);
    add_buffer(still, part, leaf.0, words, width)?;
    add_slot(still, part, leaf.0, kind, item)?;
    add_leaf_replies(still, part, leaf.0, words, width)?;
    add_reserved(still, part, leaf.0, reserved)?;
    Ok(())
}
