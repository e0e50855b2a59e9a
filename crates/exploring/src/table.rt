//! The table of a search.

ghost use Rattle.std.specs.Prelude.{◌≡◌, ◌++◌, ◌≤◌, IfOk, OnOk, codes, decimal, flat_map, length};
ghost use Rattle.schedule_log.specs.DdmText.Adds.{Adds};
ghost use Rattle.exploring.specs.SearchModel.Explored.{MachineSearch, counts_text, explore_text, explored_text};
ghost use Rattle.exploring.specs.SearchModel.Explored.{first_lost, line_text, lost_states};
ghost use Rattle.exploring.specs.StateKeys.Same.{same_state};
ghost use Rattle.explorer.specs.Searching.{KeysTell};
ghost use Rattle.exploring.specs.Findings.{AreFindings};

use crate::finding::{Findings, search_all};
use crate::lines::{push_bytes, push_count, push_lines};
use explorer::States;
use explorer::of_ddm_types::NoMemory;
use std::alloc::Global;

// How many lost states and states there are; or how many turns led to the state that was taken up when a state had no place.
fn push_counts(out: &mut Vec<u8>, findings: &Findings) -> Result<(), NoMemory>
    ensures { OnOk result
        ((s : MachineSearch) → AreFindings s findings.now → Adds out.old.items out.new.items (counts_text same_state s)) }
{
    if findings.search.full {
        push_bytes(out, b" states ")?;
        push_count(out, findings.search.schedules.len())?;
        push_bytes(out, b" turns ")?;
        push_count(out, findings.turns)?;
        return Ok(());
    }
    push_bytes(out, b" lost ")?;
    push_count(out, findings.lost_count)?;
    push_bytes(out, b" states ")?;
    push_count(out, findings.search.schedules.len())?;
    push_bytes(out, b" all")?;
    Ok(())
}

fn push_first(out: &mut Vec<u8>, findings: &Findings) -> Result<(), NoMemory>
    ensures { OnOk result
        ((s : MachineSearch) → AreFindings s findings.now →
        Adds out.old.items out.new.items
        (codes "outcomes " ++ decimal (length s.found) ++ codes " jams " ++ decimal (length s.jams)
        ++ counts_text same_state s ++ codes "\n")) }
{
    push_bytes(out, b"outcomes ")?;
    push_count(out, findings.search.found.len())?;
    push_bytes(out, b" jams ")?;
    push_count(out, findings.search.jams.len())?;
    push_counts(out, findings)?;
    push_bytes(out, b"\n")?;
    Ok(())
}

fn push_found(out: &mut Vec<u8>, findings: &Findings) -> Result<(), NoMemory>
    ensures { OnOk result
        ((s : MachineSearch) → AreFindings s findings.now →
        Adds out.old.items out.new.items (flat_map (line_text (codes "outcome")) s.found)) }
{
    push_lines(out, b"outcome", &findings.search.found)?;
    Ok(())
}

fn push_jams(out: &mut Vec<u8>, findings: &Findings) -> Result<(), NoMemory>
    ensures { OnOk result
        ((s : MachineSearch) → AreFindings s findings.now →
        Adds out.old.items out.new.items (flat_map (line_text (codes "jam")) s.jams)) }
{
    push_lines(out, b"jam", &findings.search.jams)?;
    Ok(())
}

fn push_lost(out: &mut Vec<u8>, findings: &Findings) -> Result<(), NoMemory>
    ensures { OnOk result
        ((s : MachineSearch) → AreFindings s findings.now →
        Adds out.old.items out.new.items (flat_map (line_text (codes "lost")) (first_lost same_state (lost_states same_state s)))) }
{
    push_lines(out, b"lost", &findings.lost)?;
    Ok(())
}

#[tactic(auto, unfolding(crate::specs::Opened::explored_text))]
fn push_table(out: &mut Vec<u8>, findings: &Findings) -> Result<(), NoMemory>
    ensures { OnOk result
        ((s : MachineSearch) → AreFindings s findings.now → Adds out.old.items out.new.items (explored_text same_state s)) }
{
    push_first(out, findings)?;
    push_found(out, findings)?;
    push_jams(out, findings)?;
    push_lost(out, findings)?;
    push_bytes(out, b"end\n")?;
    Ok(())
}

/// The table of the search of a machine that keeps so many states at most.
#[tactic(auto, unfolding(crate::specs::Opened::explore_text))]
pub fn explore_text<M: States>(
    alloc: Global,
    states: &mut M,
    most: u32,
) -> Result<Vec<u8>, NoMemory>
    requires most { most ≤ 1048576 }
    requires tell { KeysTell (M.start states.old) }
    ensures start { M.start states.new ≡ M.start states.old }
    ensures text { IfOk result (λ text. text.items ≡ explore_text same_state most (M.start states.old)) }
{
    let findings = search_all(alloc, states, most)?;
    let mut out = Vec::new(alloc);
    push_table(&mut out, &findings)?;
    Ok(out)
}
