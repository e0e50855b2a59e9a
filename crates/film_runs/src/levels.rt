//! How many buses are above each bus of a tree.

ghost use Rattle.std.specs.Prelude.{OnOk, map};
ghost use Rattle.film_runs.specs.DdmText.Adds.{Adds};
ghost use Rattle.film_runs.specs.Levels.{bus_levels};

use crate::of_ddm_types::NoMemory;
use tree_config::TreeConfig;

// Puts this number at the end for each bus of a level.
fn push_level(out: &mut Vec<u32>, widths: &[u32], above: u32) -> Result<(), NoMemory>
    ensures { OnOk result (Adds out.old.items out.new.items (map (λ width. above) widths.now)) }
{
    'widths: for _width in widths {
        out.push(above)?;
    }
    Ok(())
}

/// Puts at the end how many buses are above each bus of a tree, by number.
pub fn push_levels(out: &mut Vec<u32>, tree: &TreeConfig) -> Result<(), NoMemory>
    ensures { OnOk result (Adds out.old.items out.new.items (bus_levels tree.now)) }
{
    'levels: for above in 0..tree.nodes.depth() {
        push_level(out, tree.nodes.level(above), above)?;
    }
    Ok(())
}
