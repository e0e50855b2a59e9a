//! What a directory keeps of each item.

ghost use Rattle.std.specs.Prelude.{◌≡◌, ◌≤◌, ◌<◌, ◌+◌, ℕ, Bool, if◌then◌else◌, List, [], ◌∷◌, ◌++◌, OnOk, IfOk};
ghost use Rattle.std.specs.Prelude.{codes, count_by, length, slice_index, nat_eq, true};
ghost use Rattle.std.specs.List.{AllByRecursion};
ghost use Rattle.film_parts.specs.DdmText.Adds.{Adds};
ghost use Rattle.film_parts.specs.DdmTypes.declared.sizes.Hold.{Hold};
ghost use Rattle.film_parts.specs.Puts.{Puts, Tells};
ghost use Rattle.film_parts.specs.Records.{IsPlain};
ghost use Rattle.film_parts.specs.StateWords.Numbers.{flag_number, hold_number, note_words};
ghost use Rattle.film_parts.specs.StateWords.Parts.{is_recorded, record_words, records, records_from};
ghost use Rattle.film_parts.specs.TreeModel.State.Directory.{in_set};
ghost use Rattle.film_parts.specs.TreeModel.State.Values.{DirItem, Note};
ghost use Rattle.film_model.specs.Directory.{answering_text, dir_item_text, dir_part, hold_text, note_text, set_text};
ghost use Rattle.film_model.specs.Part.{number_text, numbered};

use crate::cursor::StateWords;
use crate::of_ddm_types::NoMemory;
use crate::part_text::PartText;
use crate::still::Still;
use crate::texts::{push_bytes, push_number};

// Puts a child at the end, if it is in a set.
fn push_member(out: &mut Vec<u8>, child: u32, set: u32) -> Result<(), NoMemory>
    requires { child < 16 }
    ensures { OnOk result (Adds out.old.items out.new.items (if in_set child set then number_text child else [])) }
{
    if set >> child & 1 == 1 {
        return push_number(out, child);
    }
    Ok(())
}

// Puts the children of a set at the end, of so many, ascending.
fn push_set(out: &mut Vec<u8>, children: u32, set: u32) -> Result<(), NoMemory>
    requires { children ≤ 16 }
    ensures { OnOk result (Adds out.old.items out.new.items (set_text children set)) }
{
    'children: for child in 0..children {
        push_member(out, child, set)?;
    }
    Ok(())
}

// Puts what is held at the end, by its number.
#[tactic(auto, unfolding(film_model::specs::Directory::hold_text))]
fn push_hold(out: &mut Vec<u8>, number: u32) -> Result<(), NoMemory>
    ensures { (hold : Hold) → number ≡ hold_number hold → OnOk result (Adds out.old.items out.new.items (hold_text hold)) }
{
    match number {
        1 => push_bytes(out, b" S"),
        2 => push_bytes(out, b" E"),
        _ => Ok(()),
    }
}

// Puts a note at the end, by its three words.
#[tactic(auto, unfolding(film_model::specs::Directory::note_text))]
fn push_note(
    out: &mut Vec<u8>,
    children: u32,
    kind: u32,
    child: u32,
    joined: u32,
) -> Result<(), NoMemory>
    requires { children ≤ 16 }
    ensures { (note : Note) → kind ∷ child ∷ joined ∷ [] ≡ note_words note →
        OnOk result (Adds out.old.items out.new.items (note_text children note)) }
{
    match kind {
        1 => {
            push_bytes(out, b" local")?;
            push_number(out, child)?;
            push_set(out, children, joined)
        }
        2 => {
            push_bytes(out, b" upread")?;
            push_number(out, child)?;
            push_set(out, children, joined)
        }
        3 => {
            push_bytes(out, b" uperase")?;
            push_number(out, child)
        }
        _ => Ok(()),
    }
}

// Puts at the end whether it is answering, by a flag.
#[tactic(auto, unfolding(film_model::specs::Directory::answering_text))]
fn push_answering(out: &mut Vec<u8>, flag: u32) -> Result<(), NoMemory>
    ensures { (answering : Bool) → flag ≡ flag_number answering →
        OnOk result (Adds out.old.items out.new.items (answering_text answering)) }
{
    if flag == 1 {
        return push_bytes(out, b" answering");
    }
    Ok(())
}

// Puts what is kept of an item at the end, by the record of the item in the next words.
fn push_record(out: &mut Vec<u8>, children: u32, words: &mut StateWords<'_>) -> Result<(), NoMemory>
    requires { children ≤ 16 }
    ensures { (x : ℕ) (i : DirItem) (rest : List ℕ) → words.old ≡ record_words x i ++ rest →
        OnOk result (Puts out.old.items out.new.items (dir_item_text children i) words.new rest) }
{
    words.take(1);
    let hold = words.next();
    let kind = words.next();
    let child = words.next();
    let joined = words.next();
    let flag = words.next();
    push_hold(out, hold)?;
    push_note(out, children, kind, child, joined)?;
    push_answering(out, flag)?;
    Ok(())
}

/// Which directory it is: the number of its bus, how many buses are above that one, and how many children it has.
#[derive(Clone, Copy)]
pub struct BusShape {
    pub bus: u32,
    pub level: u32,
    pub children: u32,
}

// Whether the record of this item is next, where so many are left.
fn is_next(words: &StateWords<'_>, item: u32, records: u32) -> bool
    ensures yes { result ≡ true → (0 < records) × (slice_index words.now 0 ≡ item) }
    ensures no { 0 < records → slice_index words.now 0 ≡ item → result ≡ true }
{
    records > 0 && words.peek() == item
}

// Puts at the end what is kept of an item that has no record.
fn push_unrecorded(out: &mut Vec<u8>, level: u32) -> Result<(), NoMemory>
    ensures { OnOk result (Adds out.old.items out.new.items (if nat_eq level 0 then codes " E" else [])) }
{
    if level == 0 {
        return push_bytes(out, b" E");
    }
    Ok(())
}

// Puts what is kept of an item at the end, by its record where one is next, and says how many records are left.
fn push_item(
    out: &mut Vec<u8>,
    shape: &BusShape,
    item: u32,
    records: u32,
    words: &mut StateWords<'_>,
) -> Result<u32, NoMemory>
    requires { shape.now.children ≤ 16 }
    ensures { (i : DirItem) (more : List DirItem) (rest : List ℕ) → let top = nat_eq shape.now.level 0 in
        words.old ≡ records_from top item (i ∷ more) ++ rest → records ≡ count_by (is_recorded top) (i ∷ more) → IsPlain top i
        → IfOk result (λ left. (left ≡ count_by (is_recorded top) more)
        × Puts out.old.items out.new.items (dir_item_text shape.now.children i) words.new
        (records_from top (item + 1) more ++ rest)) }
{
    if is_next(words, item, records) {
        push_record(out, shape.children, words)?;
        return Ok(records - 1);
    }
    push_unrecorded(out, shape.level)?;
    Ok(records)
}

// Adds the part of an item, by its record where one is next, and says how many records are left.
fn add_item(
    still: &mut Still,
    part: &mut PartText,
    shape: &BusShape,
    item: u32,
    records: u32,
    words: &mut StateWords<'_>,
) -> Result<u32, NoMemory>
    requires { shape.now.children ≤ 16 }
    ensures { (i : DirItem) (more : List DirItem) (rest : List ℕ) → let top = nat_eq shape.now.level 0 in
        words.old ≡ records_from top item (i ∷ more) ++ rest → records ≡ count_by (is_recorded top) (i ∷ more) → IsPlain top i
        → IfOk result (λ left. (left ≡ count_by (is_recorded top) more)
        × Tells still.old still.new (dir_part shape.now.bus shape.now.children item i ∷ [])
        words.new (records_from top (item + 1) more ++ rest)) }
{
    part.begin_one(b"dir", shape.bus, item)?;
    let left = push_item(&mut part.value, shape, item, records, words)?;
    part.end(still)?;
    Ok(left)
}

/// Adds the parts of so many items, by the records in the next words.
pub(crate) fn add_items(
    still: &mut Still,
    part: &mut PartText,
    shape: &BusShape,
    items: u32,
    words: &mut StateWords<'_>,
) -> Result<(), NoMemory>
    requires { shape.now.children ≤ 16 }
    ensures { (is : List DirItem) (rest : List ℕ) → let top = nat_eq shape.now.level 0 in
        words.old ≡ records top is ++ rest → length is ≡ items → AllByRecursion (IsPlain top) is
        → OnOk result (Tells still.old still.new (numbered (dir_part shape.now.bus shape.now.children) 0 is) words.new rest) }
{
    let mut left = words.next();
    'items: for item in 0..items {
        left = add_item(still, part, shape, item, left, words)?;
    }
    Ok(())
}
