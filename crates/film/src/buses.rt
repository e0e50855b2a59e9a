//! The parts of a directory of a machine.

ghost use Rattle.std.specs.Prelude.{◌≡◌, ◌≤◌, ℕ, List, ◌++◌, OnOk, Some, length, true};
ghost use Rattle.std.specs.List.{AllByRecursion};
ghost use Rattle.film.specs.DdmTree.Machine.{is_part};
ghost use Rattle.film.specs.DdmTypes.ItemTable.{item_count};
ghost use Rattle.film.specs.FilmParts.Records.{IsPlain};
ghost use Rattle.film.specs.FilmParts.Values.{DirHasForm};
ghost use Rattle.film.specs.Found.{IsOver};
ghost use Rattle.film.specs.TreeModel.State.Directory.{is_top};
ghost use Rattle.film.specs.TreeModel.State.Values.{DirValue, Node};
ghost use Rattle.film.specs.TreeModel.Turns.Machine.{child_count};
ghost use Rattle.film.specs.TreeModel.Turns.Tree.{bus_of_number};
ghost use Rattle.film.specs.FilmModel.Still.{bus_parts};

use crate::of_ddm_tree::{Machine, Subtree};
use crate::of_ddm_types::{BusNo, NoMemory};
use film_parts::{BusShape, PartText, StateWords, Still, add_dir};

/// Adds the parts of the directory over a bus, above which there are so many buses, where an item has so many words.
pub(crate) fn add_bus<const WORDS: usize, C: Subtree<WORDS>>(
    still: &mut Still,
    words: &mut Vec<u32>,
    part: &mut PartText,
    machine: &Machine<WORDS, C>,
    bus: BusNo,
    level: u32,
    width: u32,
) -> Result<(), NoMemory>
    requires bus { is_part (bus_of_number bus) machine.now.machine ≡ true }
    requires level { level ≤ 3 }
    requires children { (count : ℕ) → child_count bus machine.now.machine ≡ Some count → count ≤ 16 }
    ensures { (d : DirValue) (ns : List Node) (most : ℕ) → IsOver bus d ns machine.now.machine → d.bus ≡ bus →
        d.level ≡ level → length d.items ≡ item_count machine.now.machine.items → DirHasForm width most d
        → AllByRecursion (IsPlain (is_top d)) d.items → OnOk result (still.new ≡ still.old ++ bus_parts machine.now.machine bus) }
{
    words.clear();
    machine.write_part(bus, words)?;
    let mut left = StateWords::new(words);
    let shape = BusShape {
        bus: bus.0,
        level,
        children: machine.children(bus),
    };
    add_dir(
        still,
        part,
        &shape,
        machine.items().len(),
        &mut left,
        width as usize,
    )?;
    Ok(())
}
