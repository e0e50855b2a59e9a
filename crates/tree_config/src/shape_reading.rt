//! A shape is judged.

ghost use Rattle.std.specs.Prelude.{◌≡◌, ◌<◌, ◌^◌, ◌⊎◌, None, Ok, Err, IfOk, IfErr, length, sum, nat_lt};
ghost use Rattle.std.specs.List.{list_any};
ghost use Rattle.tree_config.specs.declared.refusal.TreeRefusal.TheVariants.{NoMemory};
ghost use Rattle.tree_config.specs.declared.shape_text.Progress.TheVariants as progress;
ghost use Rattle.tree_config.specs.Levels.{leaves_of, widths_of};
ghost use Rattle.tree_config.specs.Lists.{lists_of};
ghost use Rattle.tree_config.specs.ShapeScan.{place_from};
ghost use Rattle.tree_config.specs.TreeFile.{levels_in};

use crate::refusal::TreeRefusal;
use crate::shape::Shape;
use crate::shape_text::{bad_place, first_depth, has_other_depth, level_lists};
use std::alloc::Global;

const MOST_DEPTH: usize = 4;

const MOST_WIDTH: u32 = 16;

const MOST_LEAVES: u64 = 64;

fn is_wide(level: &[u32]) -> bool
    ensures { result ≡ list_any (nat_lt 16) level.now }
{
    level.iter().any(|width| *width > MOST_WIDTH)
}

fn is_any_wide(levels: &[Vec<u32>]) -> bool
    ensures { result ≡ list_any (nat_lt 16) (widths_of (lists_of levels.now)) }
{
    'level: for level in levels {
        if is_wide(level) {
            return true;
        }
    }
    false
}

fn is_crowded(level: &[u32]) -> bool
    ensures { result ≡ nat_lt 64 (sum level.now) }
{
    let mut leaves = 0u64;
    'width: for width in level {
        leaves += u64::from(*width);
        if leaves > MOST_LEAVES {
            return true;
        }
    }
    false
}

fn has_too_many_leaves(levels: &[Vec<u32>]) -> bool
    ensures { result ≡ nat_lt 64 (leaves_of (lists_of levels.now)) }
{
    match levels.last() {
        Some(level) => is_crowded(level),
        None => false,
    }
}

/// The shape of a text that is one.
fn read_levels(alloc: Global, text: &[u8]) -> Result<Shape, TreeRefusal>
    requires length { length text.now < 2 ^ 32 }
    requires shape { place_from progress.Nothing 0 text.now ≡ None }
    ensures shape { IfOk result (λ s. levels_in text.now ≡ Ok s) }
    ensures refused { IfErr result (λ r. (r ≡ NoMemory) ⊎ (levels_in text.now ≡ Err r)) }
{
    let depth = first_depth(text);
    if has_other_depth(text, depth) {
        return Err(TreeRefusal::Uneven);
    }
    if depth > MOST_DEPTH {
        return Err(TreeRefusal::TooDeep);
    }
    let levels = level_lists(alloc, text, depth)?;
    if is_any_wide(&levels) {
        return Err(TreeRefusal::TooWide);
    }
    if has_too_many_leaves(&levels) {
        return Err(TreeRefusal::TooManyLeaves);
    }
    Ok(Shape { levels })
}

/// The shape that a text says.
pub(crate) fn read_shape(alloc: Global, text: &[u8]) -> Result<Shape, TreeRefusal>
    requires { length text.now < 2 ^ 32 }
    ensures shape { IfOk result (λ s. levels_in text.now ≡ Ok s) }
    ensures refused { IfErr result (λ r. (r ≡ NoMemory) ⊎ (levels_in text.now ≡ Err r)) }
{
    match bad_place(text) {
        Some(place) => Err(TreeRefusal::BadShape(place as u32)),
        None => read_levels(alloc, text),
    }
}
