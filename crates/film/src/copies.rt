//! Where the current copies are.

ghost use Rattle.std.specs.Prelude.{◌≡◌, ◌<◌, ◌≤◌, ◌++◌, [], ◌∷◌, OnOk};
ghost use Rattle.film.specs.DdmTypes.ItemTable.{item_count};
ghost use Rattle.film.specs.FilmModel.Still.{place_part};

use crate::of_ddm_tree::{Machine, Subtree};
use crate::of_ddm_types::{ItemId, NoMemory};
use film_parts::{PartText, Still, add_place};

/// Adds the part that says where the current copy of an item is.
pub(crate) fn add_copy<const WORDS: usize, C: Subtree<WORDS>>(
    still: &mut Still,
    part: &mut PartText,
    machine: &Machine<WORDS, C>,
    item: ItemId,
) -> Result<(), NoMemory>
    requires small { WORDS ≤ 16 }
    requires item { item < item_count machine.now.machine.items }
    ensures { OnOk result (still.new ≡ still.old ++ place_part machine.now.machine item ∷ []) }
{
    add_place(still, part, item, machine.found(item).at)?;
    Ok(())
}
