//! What a search found.

ghost use Rattle.std.specs.Prelude.{◌≡◌, ◌<◌, ◌≤◌, IfOk, drop, length, map};
ghost use Rattle.std.specs.List.{AllByRecursion};
ghost use Rattle.tree_model.specs.State.Values.{MachineValue};
ghost use Rattle.search_laws.specs.Search.{first_length, found_at, searched};
ghost use Rattle.exploring.specs.SearchModel.Explored.{first_lost, lost_states};
ghost use Rattle.exploring.specs.SearchModel.Machines.{quiet_space};
ghost use Rattle.exploring.specs.StateKeys.Same.{same_state};
ghost use Rattle.explorer.specs.Losing.{kept_at};
ghost use Rattle.explorer.specs.Searching.{IsKept, KeysTell, kept_by, searched_by};
ghost use Rattle.exploring.specs.Findings.{AreFindings};

use explorer::of_ddm_types::NoMemory;
use explorer::{Line, Search, States, lost_states, search};
use std::alloc::Global;

/// A search; how many turns led to the state that is taken up next, 0 where there is none; how many states are lost; and the line of
/// the first of these, if there is one.
#[derive(Drop)]
pub struct Findings {
    pub(crate) search: Search,
    pub(crate) turns: usize,
    pub(crate) lost_count: usize,
    pub(crate) lost: Vec<Line>,
}

// How many turns led to the state that is taken up next.
fn next_turns(alloc: Global, search: &Search) -> Result<usize, NoMemory>
    ensures { IfOk result
        (λ turns. (m : MachineValue) → turns ≡ first_length (drop search.now.next (map (kept_by m) search.now.schedules))) }
{
    if search.schedules.len() <= search.next as usize {
        return Ok(0);
    }
    let schedule = search.schedules.schedule(alloc, search.next)?;
    Ok(schedule.len())
}

// The numbers of the lost states; none where a state had no place.
fn lost_numbers<M: States>(
    alloc: Global,
    states: &mut M,
    search: &Search,
) -> Result<Vec<u32>, NoMemory>
    requires tell { KeysTell (M.start states.old) }
    requires kept { IsKept (M.start states.old) search.now }
    ensures start { M.start states.new ≡ M.start states.old }
    ensures lost { IfOk result
        (λ numbers. map (kept_at (M.start states.old) search.now) numbers.items
        ≡ lost_states same_state (searched_by (M.start states.old) search.now)) }
    ensures few { IfOk result (λ numbers. AllByRecursion (λ number. number < search.now.next) numbers.items) }
{
    if search.full {
        return Ok(Vec::new(alloc));
    }
    lost_states(alloc, states, search)
}

// The line of the state of a number.
fn line_of<M: States>(
    alloc: Global,
    states: &mut M,
    search: &Search,
    number: u32,
) -> Result<Line, NoMemory>
    requires few { length search.now.schedules ≤ 1048576 }
    requires number { number < length search.now.schedules }
    ensures start { M.start states.new ≡ M.start states.old }
    ensures line { IfOk result
        (λ line. line ≡ found_at (quiet_space same_state) (kept_at (M.start states.old) search.now number)) }
{
    let schedule = search.schedules.schedule(alloc, number)?;
    states.go_to(&schedule)?;
    let outcome = states.outcome(alloc)?;
    Ok(Line { outcome, schedule })
}

// The line of the first of the states of these numbers, if there is one.
fn first_line<M: States>(
    alloc: Global,
    states: &mut M,
    search: &Search,
    numbers: &[u32],
) -> Result<Vec<Line>, NoMemory>
    requires kept { IsKept (M.start states.old) search.now }
    requires few { AllByRecursion (λ number. number < search.now.next) numbers.now }
    ensures start { M.start states.new ≡ M.start states.old }
    ensures lines { IfOk result
        (λ lines. lines.items ≡ first_lost same_state (map (kept_at (M.start states.old) search.now) numbers.now)) }
{
    let mut lines = Vec::new(alloc);
    if numbers.is_empty() {
        return Ok(lines);
    }
    let line = line_of(alloc, states, search, numbers[0])?;
    lines.push(line)?;
    Ok(lines)
}

/// Searches all states, and then for those that are lost.
pub(crate) fn search_all<M: States>(
    alloc: Global,
    states: &mut M,
    most: u32,
) -> Result<Findings, NoMemory>
    requires most { most ≤ 1048576 }
    requires tell { KeysTell (M.start states.old) }
    ensures start { M.start states.new ≡ M.start states.old }
    ensures findings { IfOk result (AreFindings (searched (quiet_space same_state) most (M.start states.old))) }
{
    let search = search(alloc, states, most)?;
    let turns = next_turns(alloc, &search)?;
    let numbers = lost_numbers(alloc, states, &search)?;
    let lost = first_line(alloc, states, &search, &numbers)?;
    Ok(Findings {
        search,
        turns,
        lost_count: numbers.len(),
        lost,
    })
}
