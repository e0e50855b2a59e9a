//! The part that says where the current copy of an item is.

ghost use Rattle.std.specs.Prelude.{◌≡◌, [], ◌∷◌, ◌++◌, OnOk, Some, codes};
ghost use Rattle.film_model.specs.Part.{key_of};
ghost use Rattle.film_model.specs.Still.{place_text};

use crate::of_ddm_types::{ItemId, NoMemory};
use crate::of_tree_model::CopyPlace;
use crate::part_text::PartText;
use crate::still::Still;
use crate::texts::push_place;

/// Adds the part that says where the current copy of an item is.
pub fn add_place(
    still: &mut Still,
    part: &mut PartText,
    item: ItemId,
    place: CopyPlace,
) -> Result<(), NoMemory>
    ensures { OnOk result (still.new ≡ still.old ++ record { key = key_of (codes "copy") item; value = place_text (Some place) } ∷ []) }
{
    part.begin(b"copy", item.0)?;
    push_place(&mut part.value, place)?;
    part.end(still)?;
    Ok(())
}
