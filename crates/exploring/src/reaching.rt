//! The schedule of a line of the table.

ghost use Rattle.std.specs.Prelude.{◌≡◌, ◌-◌, ◌≤◌, ◌++◌, IfOk, option_copied, option_map, slice_get};
ghost use Rattle.exploring.specs.SearchModel.Explored.{reach_text};
ghost use Rattle.search_store.specs.Known.{items_of};
ghost use Rattle.exploring.specs.StateKeys.Same.{same_state};
ghost use Rattle.explorer.specs.Searching.{KeysTell};

use crate::finding::{Findings, search_all};
use explorer::of_ddm_types::NoMemory;
use explorer::{Line, States};
use schedule_log::write_schedule;
use std::alloc::Global;

// The line there, counted from 0: the outcomes come first, then the jams.
fn line_at(findings: &Findings, place: usize) -> Option<&Line>
    ensures { option_copied result ≡ slice_get (findings.now.search.found ++ findings.now.search.jams ++ findings.now.lost.items) place }
{
    let found = findings.search.found.len();
    if place < found {
        return findings.search.found.get(place);
    }
    let jams = findings.search.jams.len();
    if place - found < jams {
        return findings.search.jams.get(place - found);
    }
    findings.lost.get(place - found - jams)
}

/// The schedule of a line, counted from 1 after the first line of the table; None where there are fewer.
#[tactic(auto, unfolding(crate::specs::Opened::reach_text))]
pub fn reach_text<M: States>(
    alloc: Global,
    states: &mut M,
    most: u32,
    line: u32,
) -> Result<Option<Vec<u8>>, NoMemory>
    requires most { most ≤ 1048576 }
    requires line { 1 ≤ line }
    requires tell { KeysTell (M.start states.old) }
    ensures start { M.start states.new ≡ M.start states.old }
    ensures text { IfOk result
        (λ text. option_map items_of text ≡ reach_text same_state most line (M.start states.old)) }
{
    let findings = search_all(alloc, states, most)?;
    match line_at(&findings, line as usize - 1) {
        Some(line) => Ok(Some(write_schedule(alloc, &line.schedule)?)),
        None => Ok(None),
    }
}
