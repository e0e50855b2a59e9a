//! The words of a bus.

ghost use Rattle.std.specs.Prelude.{◌≡◌, ◌++◌, OnOk};
ghost use Rattle.std.specs.List.{AllByRecursion};
ghost use Rattle.tree_model.specs.State.Values.{DirValue};
ghost use Rattle.tree_model.specs.Turns.Machine.{no_traffic};
ghost use Rattle.state_words.specs.Parts.{dir_words, traffic_words};
ghost use Rattle.time_laws.specs.Forget.{forget_dir};
ghost use Rattle.timeless_words.specs.Struck.{IsWide, bus_struck, entries_struck};

use crate::slices::{first, parted};
use ddm_types::NoMemory;

/// How many words the count and the epoch of a bus have, a stamp, a record of an item, and what is counted of a bus's traffic.
const TIME: usize = 5;

const STAMP: usize = 4;

const RECORD: usize = 6;

const TRAFFIC: usize = 6;

// Puts so many entries of a down list at the end, each with a stamp of zeros, and what is behind them.
fn push_entries(
    words: &[u32],
    count: u32,
    item_words: usize,
    out: &mut Vec<u32>,
) -> Result<(), NoMemory>
    ensures { OnOk result (out.new.items ≡ out.old.items ++ entries_struck item_words count words.now) }
{
    let mut left = words;
    for _entry in 0..count {
        let (kind_and_item, behind) = parted(left, 2);
        let (_, behind) = parted(behind, STAMP);
        let (copy, behind) = parted(behind, item_words);
        out.extend_from_slice(kind_and_item)?;
        out.extend_from_slice(&[0; STAMP])?;
        out.extend_from_slice(copy)?;
        left = behind;
    }
    out.extend_from_slice(left)?;
    Ok(())
}

// Puts the words of a directory at the end, with zeros for its time, and those of a bus that has granted nothing.
fn push_struck(words: &[u32], item_words: usize, out: &mut Vec<u32>) -> Result<(), NoMemory>
    ensures { OnOk result (out.new.items ≡ out.old.items ++ bus_struck item_words words.now) }
{
    let (_, behind) = parted(words, TIME);
    let (records, behind) = parted(behind, 1 + RECORD * first(behind) as usize);
    let (count, entries) = parted(behind, 1);
    out.extend_from_slice(&[0; TIME])?;
    out.extend_from_slice(records)?;
    out.extend_from_slice(count)?;
    push_entries(entries, first(behind), item_words, out)?;
    out.extend_from_slice(&[0; TRAFFIC])?;
    Ok(())
}

/// Puts the words of a bus at the end, given those of the directory over it: as if it had granted nothing, and all had come at once.
pub fn push_bus(words: &[u32], item_words: usize, out: &mut Vec<u32>) -> Result<(), NoMemory>
    ensures { OnOk result
        ((d : DirValue) → AllByRecursion (IsWide item_words) d.down → words.now ≡ dir_words d →
        out.new.items ≡ out.old.items ++ (dir_words (forget_dir d) ++ traffic_words no_traffic)) }
{
    push_struck(words, item_words, out)
}
