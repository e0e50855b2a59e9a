//! The text of a shape, in passes with a few counters.

ghost use Rattle.std.specs.Prelude.{◌≡◌, ◌<◌, ◌≤◌, ◌&&◌, IfSome, ◌^◌, ◌++◌, ◌∷◌, [], ◌+◌, ℕ, false, length, not};
ghost use Rattle.std.specs.Prelude.{nat_eq, slice_index, map, IfOk};
ghost use Rattle.std.specs.List.{list_any, range_with_len};
ghost use Rattle.tree_config.specs.Lists.{lists_of};
ghost use Rattle.tree_config.specs.ShapeText.{leaf_byte};
ghost use Rattle.tree_config.specs.ShapeScan.{closed, count_after, depth_after, depths_in, ends_group, is_whole};
ghost use Rattle.tree_config.specs.ShapeScan.{open_count, place_from, progress_after, widths_in, with_if};

use crate::of_ddm_types::NoMemory;
use std::alloc::Global;

/// How far the text of a shape is read.
#[derive(Clone, Copy)]
pub(crate) enum Progress {
    Nothing,
    /// How many groups are open round the innermost one, and whether that one has no node yet.
    Open(usize, bool),
    Whole,
}

/// A group is closed round which this many are open.
fn close_group(outer: usize) -> Progress
    ensures progress { result ≡ closed outer }
    ensures open { open_count result ≡ outer }
{
    if outer == 0 {
        Progress::Whole
    } else {
        Progress::Open(outer - 1, false)
    }
}

fn after_open(outer: usize, empty: bool, byte: u8) -> Option<Progress>
    requires { outer < 2 ^ 63 }
    ensures progress { result ≡ progress_after (Progress.Open outer empty) byte }
    ensures open { IfSome result (λ next. open_count next ≤ outer + 2) }
{
    if byte == b'L' {
        Some(Progress::Open(outer, false))
    } else if byte == b'(' {
        Some(Progress::Open(outer + 1, true))
    } else if byte == b')' && !empty {
        Some(close_group(outer))
    } else {
        None
    }
}

fn after_byte(progress: Progress, byte: u8) -> Option<Progress>
    requires { open_count progress < 2 ^ 63 }
    ensures progress { result ≡ progress_after progress byte }
    ensures open { IfSome result (λ next. open_count next ≤ open_count progress + 1) }
{
    match progress {
        Progress::Nothing if byte == b'(' => Some(Progress::Open(0, true)),
        Progress::Open(outer, empty) => after_open(outer, empty, byte),
        _ => None,
    }
}

/// The place that keeps a text from being a shape, if there is one.
pub(crate) fn bad_place(text: &[u8]) -> Option<usize>
    ensures place { result ≡ place_from Progress.Nothing 0 text.now }
    ensures within { IfSome result (λ place. place ≤ length text.now) }
{
    let mut progress = Progress::Nothing;
    'reading: for (at, byte) in text.iter().enumerate() {
        match after_byte(progress, *byte) {
            Some(next) => progress = next,
            None => return Some(at),
        }
    }
    match progress {
        Progress::Whole => None,
        _ => Some(text.len()),
    }
}

/// How many groups are open behind a byte.
fn depth_behind(depth: usize, byte: u8) -> usize
    requires { depth < 2 ^ 63 }
    ensures depth { result ≡ depth_after depth byte }
    ensures small { result ≤ depth + 1 }
{
    match byte {
        b'(' => depth + 1,
        b')' => depth.saturating_sub(1),
        _ => depth,
    }
}

/// How many groups are round the first leaf.
pub(crate) fn first_depth(text: &[u8]) -> usize
    ensures { result ≡ slice_index (depths_in 0 text.now) 0 }
{
    let mut depth = 0;
    'reading: for byte in text {
        if *byte == b'L' {
            return depth;
        }
        depth = depth_behind(depth, *byte);
    }
    0
}

fn is_other_leaf(byte: u8, depth: usize, first: usize) -> bool
    ensures { result ≡ (nat_eq byte leaf_byte && not (nat_eq depth first)) }
{
    byte == b'L' && depth != first
}

/// Whether another number of groups is round some leaf.
pub(crate) fn has_other_depth(text: &[u8], first: usize) -> bool
    ensures { result ≡ list_any (λ d. not (nat_eq d first)) (depths_in 0 text.now) }
{
    let mut depth = 0;
    'reading: for byte in text {
        if is_other_leaf(*byte, depth, first) {
            return true;
        }
        depth = depth_behind(depth, *byte);
    }
    false
}

fn is_end(level: usize, depth: usize, byte: u8) -> bool
    requires { level < 2 ^ 63 }
    ensures { result ≡ ends_group level depth byte }
{
    depth == level + 1 && byte == b')'
}

fn count_behind(level: usize, depth: usize, count: u32, byte: u8) -> u32
    requires level { level < 2 ^ 63 }
    requires count { count + 1 < 2 ^ 32 }
    ensures nodes { result ≡ count_after level depth count byte }
    ensures small { result ≤ count + 1 }
{
    if depth != level + 1 {
        count
    } else if byte == b')' {
        0
    } else {
        count + 1
    }
}

fn push_if(widths: &mut Vec<u32>, is_wanted: bool, width: u32) -> Result<(), NoMemory>
    ensures { IfOk result (λ _. widths.new.items ≡ widths.old.items ++ with_if is_wanted width []) }
{
    if is_wanted {
        widths.push(width)?;
    }
    Ok(())
}

/// The numbers of nodes of the groups that have `level` groups round them, from left to right.
fn level_widths(alloc: Global, text: &[u8], level: usize) -> Result<Vec<u32>, NoMemory>
    requires text { length text.now < 2 ^ 32 }
    requires level { level < 2 ^ 63 }
    ensures { IfOk result (λ widths. widths.items ≡ widths_in level 0 0 text.now) }
{
    let mut widths = Vec::new(alloc);
    let mut depth = 0;
    let mut count = 0;
    'reading: for byte in text {
        push_if(&mut widths, is_end(level, depth, *byte), count)?;
        count = count_behind(level, depth, count, *byte);
        depth = depth_behind(depth, *byte);
    }
    Ok(widths)
}

/// The widths of each of the first levels, from the top.
pub(crate) fn level_lists(
    alloc: Global,
    text: &[u8],
    depth: usize,
) -> Result<Vec<Vec<u32>>, NoMemory>
    requires text { length text.now < 2 ^ 32 }
    requires depth { depth < 2 ^ 32 }
    ensures { IfOk result (λ levels. lists_of levels.items ≡ map (λ level. widths_in level 0 0 text.now) (range_with_len 0 depth)) }
{
    let mut levels = Vec::new(alloc);
    'level: for level in 0..depth {
        levels.push(level_widths(alloc, text, level)?)?;
    }
    Ok(levels)
}
