//! The lines of a film: those of the parts that have a value, and those of the parts that a turn has changed.
ghost use Rattle.std.specs.Prelude.{◌≡◌, ◌<◌, ◌≤◌, ◌+◌, ◌++◌, [], OnOk, bytes_eq, drop, length, slice_index_or, slice_set, take, true};
ghost use Rattle.std.specs.Prelude.{if◌then◌else◌};
ghost use Rattle.film_parts.specs.DdmText.Adds.{Adds};
ghost use Rattle.film_model.specs.Part.{changed, has_value, part_line, valued};
ghost use Rattle.film_parts.specs.Spans.{no_part};

use crate::of_ddm_types::NoMemory;
use crate::still::Still;

/// Puts the line of a part at the end, by the part's place.
#[tactic(auto, unfolding(film_model::specs::Part::part_line))]
fn push_line(out: &mut Vec<u8>, still: &Still, place: usize) -> Result<(), NoMemory>
    requires { place < length still.now }
    ensures { OnOk result (Adds out.old.items out.new.items (part_line (slice_index_or still.now place no_part))) }
{
    out.extend_from_slice(still.key(place))?;
    out.extend_from_slice(still.value(place))?;
    out.extend_from_slice(b"\n")?;
    Ok(())
}

// Puts its line at the end, if it has a value.
fn push_if_valued(out: &mut Vec<u8>, still: &Still, place: usize) -> Result<(), NoMemory>
    requires { place < length still.now }
    ensures { let part = slice_index_or still.now place no_part in
        OnOk result (Adds out.old.items out.new.items (if has_value part then part_line part else [])) }
{
    if still.value(place).is_empty() {
        return Ok(());
    }
    push_line(out, still, place)
}

// Puts its line at the end, if its value differs from that in an earlier still.
fn push_if_changed(
    out: &mut Vec<u8>,
    before: &Still,
    after: &Still,
    place: usize,
) -> Result<(), NoMemory>
    requires before { place < length before.now }
    requires after { place < length after.now }
    ensures { let part = slice_index_or after.now place no_part in
        OnOk result (Adds out.old.items out.new.items
        (if bytes_eq (slice_index_or before.now place no_part).value part.value then []
        else part_line part)) }
{
    if before.value(place) == after.value(place) {
        return Ok(());
    }
    push_line(out, after, place)
}

/// Puts at the end the lines of the parts that have a value.
pub fn push_valued(out: &mut Vec<u8>, still: &Still) -> Result<(), NoMemory>
    ensures { OnOk result (Adds out.old.items out.new.items (valued still.now)) }
{
    for place in 0..still.len() {
        push_if_valued(out, still, place)?;
    }
    Ok(())
}

/// Puts at the end the lines of the parts whose values differ from those of an earlier still with the same keys. The part at a place is
/// compared with the earlier one there.
pub fn push_changed(out: &mut Vec<u8>, before: &Still, after: &Still) -> Result<(), NoMemory>
    ensures { OnOk result (Adds out.old.items out.new.items (changed before.now after.now)) }
{
    let count = before.len().min(after.len());
    for place in 0..count {
        push_if_changed(out, before, after, place)?;
    }
    Ok(())
}

// Whether the part at a place is this one already.
fn is_there(still: &Still, place: usize, parts: &Still, at: usize) -> bool
    requires place { place < length still.now }
    requires at { at < length parts.now }
    ensures { result ≡ true → slice_index_or still.now place no_part ≡ slice_index_or parts.now at no_part }
{
    still.value(place) == parts.value(at) && still.key(place) == parts.key(at)
}

// Puts a part in place of another one, and its line at the end, if its value is another.
fn put_part(
    out: &mut Vec<u8>,
    still: &mut Still,
    place: usize,
    parts: &Still,
    at: usize,
) -> Result<(), NoMemory>
    requires place { place < length still.old }
    requires at { at < length parts.now }
    ensures text { let part = slice_index_or parts.now at no_part in
        OnOk result (Adds out.old.items out.new.items
        (if bytes_eq (slice_index_or still.old place no_part).value part.value then [] else part_line part)) }
    ensures still { OnOk result (still.new ≡ slice_set still.old place (slice_index_or parts.now at no_part)) }
{
    if is_there(still, place, parts, at) {
        return Ok(());
    }
    if still.value(place) != parts.value(at) {
        push_line(out, parts, at)?;
    }
    still.put(place, parts.key(at), parts.value(at))?;
    Ok(())
}

/// Puts parts in place of those from a place of a still on, and at the end of a text the lines of those whose values are others. So a
/// still is kept up where only these may have changed.
pub fn put_changed(
    out: &mut Vec<u8>,
    still: &mut Still,
    from: usize,
    parts: &Still,
) -> Result<(), NoMemory>
    requires { from + length parts.now ≤ length still.old }
    ensures text { OnOk result (Adds out.old.items out.new.items (changed (drop from still.old) parts.now)) }
    ensures still { OnOk result (still.new ≡ take from still.old ++ (parts.now ++ drop (from + length parts.now) still.old)) }
{
    // No place is beyond what a number can count.
    let _size = still.len();
    for at in 0..parts.len() {
        put_part(out, still, from + at, parts, at)?;
    }
    Ok(())
}
