//! The parts of a directory.

ghost use Rattle.std.specs.Prelude.{◌≡◌, ◌≤◌, ℕ, List, [], ◌∷◌, ◌++◌, OnOk, codes, length};
ghost use Rattle.std.specs.List.{AllByRecursion};
ghost use Rattle.film_parts.specs.DdmText.Adds.{Adds};
ghost use Rattle.film_parts.specs.DdmTypes.declared.keys.Stamp.{Stamp};
ghost use Rattle.film_parts.specs.Forms.{IsWide};
ghost use Rattle.film_parts.specs.Puts.{Puts, Tells};
ghost use Rattle.film_parts.specs.Records.{IsPlain, dir_list_words};
ghost use Rattle.film_parts.specs.TreeModel.State.Directory.{is_top};
ghost use Rattle.film_parts.specs.StateWords.Numbers.{stamp_words};
ghost use Rattle.film_parts.specs.StateWords.Parts.{counted, dir_words, down_words, item_and_words, request_words};
ghost use Rattle.film_parts.specs.TreeModel.State.Values.{CopyValue, DirValue, DownValue, RequestValue};
ghost use Rattle.film_parts.specs.ValueLaws.Values.{CopyHasForm, DirHasForm};
ghost use Rattle.film_model.specs.Directory.{count_text, dir_list_parts, dir_parts, down_text};
ghost use Rattle.film_model.specs.Leaf.{copy_text, request_text};
ghost use Rattle.film_model.specs.Part.{key_of, listed, stamp_text};
ghost use Rattle.film_parts.specs.DdmTypes.Keys.{stamp_at, stamp_numbers};

use crate::cursor::StateWords;
use crate::items::{BusShape, add_items};
use crate::lists::{first_of, push_copies, push_down_list, push_requests};
use crate::of_ddm_types::NoMemory;
use crate::part_text::PartText;
use crate::still::Still;
use crate::texts::{push_count, push_stamp};

// The numbers of a stamp, with this one as the number of a level.
fn present(level: u32, number: u32, above: [u32; 4]) -> [u32; 4]
    requires { level ≤ 3 }
    ensures { (stamp : Stamp) → above ≡ stamp_words stamp → result ≡ stamp_words (stamp_at stamp level number) }
{
    let mut numbers = above;
    numbers[level as usize] = number;
    numbers
}

// Puts the present stamp of a bus at the end: the numbers of those above it, and its own count, which is next.
fn push_time(out: &mut Vec<u8>, level: u32, words: &mut StateWords<'_>) -> Result<(), NoMemory>
    requires { level ≤ 3 }
    ensures { (count : ℕ) (epoch : Stamp) (rest : List ℕ) → words.old ≡ count ∷ stamp_words epoch ++ rest →
        OnOk result (Puts out.old.items out.new.items
        (stamp_text (stamp_numbers level (stamp_at epoch level count))) words.new rest) }
{
    let count = words.next();
    let s0 = words.next();
    let s1 = words.next();
    let s2 = words.next();
    let s3 = words.next();
    let numbers = present(level, count, [s0, s1, s2, s3]);
    push_stamp(out, first_of(&numbers, level as usize + 1))?;
    Ok(())
}

// Adds the part of the time of a bus, by the next words.
fn add_time(
    still: &mut Still,
    part: &mut PartText,
    shape: &BusShape,
    words: &mut StateWords<'_>,
) -> Result<(), NoMemory>
    requires { shape.now.level ≤ 3 }
    ensures { (count : ℕ) (epoch : Stamp) (rest : List ℕ) → words.old ≡ count ∷ stamp_words epoch ++ rest →
        OnOk result (Tells still.old still.new
        (record {
          key = key_of (codes "time") shape.now.bus;
          value = stamp_text (stamp_numbers shape.now.level
              (stamp_at epoch shape.now.level count));
        } ∷ []) words.new
        rest) }
{
    part.begin(b"time", shape.bus)?;
    push_time(&mut part.value, shape.level, words)?;
    part.end(still)?;
    Ok(())
}

// Adds the part of a down list, by the next words.
fn add_down(
    still: &mut Still,
    part: &mut PartText,
    shape: &BusShape,
    words: &mut StateWords<'_>,
    width: usize,
) -> Result<(), NoMemory>
    ensures { (es : List DownValue) (rest : List ℕ) → words.old ≡ counted down_words es ++ rest →
        AllByRecursion (IsWide width) es →
        OnOk result (Tells still.old still.new
        (record {
          key = key_of (codes "down") shape.now.bus;
          value = listed (down_text shape.now.level) es;
        } ∷ []) words.new rest) }
{
    part.begin(b"down", shape.bus)?;
    push_down_list(&mut part.value, shape.level as usize, words, width)?;
    part.end(still)?;
    Ok(())
}

// Adds the part of the requests, by the next words.
fn add_requests(
    still: &mut Still,
    part: &mut PartText,
    bus: u32,
    words: &mut StateWords<'_>,
) -> Result<(), NoMemory>
    ensures { (rs : List RequestValue) (rest : List ℕ) → words.old ≡ counted request_words rs ++ rest →
        OnOk result (Tells still.old still.new
        (record { key = key_of (codes "requests") bus; value = listed request_text rs } ∷ [])
        words.new rest) }
{
    part.begin(b"requests", bus)?;
    push_requests(&mut part.value, words)?;
    part.end(still)?;
    Ok(())
}

// Adds the part of a list of copies, by the next words.
fn add_copies(
    still: &mut Still,
    part: &mut PartText,
    name: &[u8],
    bus: u32,
    words: &mut StateWords<'_>,
    width: usize,
) -> Result<(), NoMemory>
    ensures { (cs : List CopyValue) (rest : List ℕ) → words.old ≡ counted item_and_words cs ++ rest →
        AllByRecursion (CopyHasForm width) cs →
        OnOk result (Tells still.old still.new
        (record { key = key_of name.now bus; value = listed copy_text cs } ∷ []) words.new rest) }
{
    part.begin(name, bus)?;
    push_copies(&mut part.value, words, width)?;
    part.end(still)?;
    Ok(())
}

// Adds the part of the places that are kept, by the next word.
fn add_kept(
    still: &mut Still,
    part: &mut PartText,
    bus: u32,
    words: &mut StateWords<'_>,
) -> Result<(), NoMemory>
    ensures { (kept : ℕ) (rest : List ℕ) → words.old ≡ kept ∷ rest →
        OnOk result (Tells still.old still.new
        (record { key = key_of (codes "kept") bus; value = count_text kept } ∷ []) words.new rest) }
{
    part.begin(b"kept", bus)?;
    let kept = words.next();
    push_count(&mut part.value, kept)?;
    part.end(still)?;
    Ok(())
}

// Adds the parts of what waits in a directory's lists, by the next words.
fn add_dir_lists(
    still: &mut Still,
    part: &mut PartText,
    shape: &BusShape,
    words: &mut StateWords<'_>,
    width: usize,
) -> Result<(), NoMemory>
    ensures { (d : DirValue) (most : ℕ) → d.bus ≡ shape.now.bus → d.level ≡ shape.now.level →
        DirHasForm width most d → words.old ≡ dir_list_words d →
        OnOk result (still.new ≡ still.old ++ dir_list_parts d) }
{
    add_down(still, part, shape, words, width)?;
    add_requests(still, part, shape.bus, words)?;
    add_copies(still, part, b"replies", shape.bus, words, width)?;
    add_copies(still, part, b"parked", shape.bus, words, width)?;
    add_kept(still, part, shape.bus, words)?;
    Ok(())
}

/// Adds the parts of a directory with so many items, by its words.
pub fn add_dir(
    still: &mut Still,
    part: &mut PartText,
    shape: &BusShape,
    items: u32,
    words: &mut StateWords<'_>,
    width: usize,
) -> Result<(), NoMemory>
    requires level { shape.now.level ≤ 3 }
    requires children { shape.now.children ≤ 16 }
    ensures { (d : DirValue) (most : ℕ) → d.bus ≡ shape.now.bus → d.level ≡ shape.now.level →
        length d.items ≡ items → DirHasForm width most d → AllByRecursion (IsPlain (is_top d)) d.items →
        words.old ≡ dir_words d → OnOk result (still.new ≡ still.old ++ dir_parts shape.now.children d) }
{
    add_time(still, part, shape, words)?;
    add_items(still, part, shape, items, words)?;
    add_dir_lists(still, part, shape, words, width)?;
    Ok(())
}
