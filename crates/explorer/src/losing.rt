//! The kept states from which no turns lead to an end.

ghost use Rattle.std.specs.Prelude.{◌≡◌, ◌+◌, ◌<◌, ◌≤◌, ◌++◌, ◌∷◌, [], true, false, IfOk, OnOk, length, map, replicate};
ghost use Rattle.std.specs.Prelude.{slice_set, if◌then◌else◌};
ghost use Rattle.std.specs.List.{AllByRecursion};
ghost use Rattle.search_laws.specs.Lost.{lost};
ghost use Rattle.search_model.specs.Machines.{quiet_space};
ghost use Rattle.search_model.specs.Tried.{tried_turns};
ghost use Rattle.state_keys.specs.Same.{same_state};
ghost use Rattle.explorer.specs.Losing.{AreWays, IsReached, LeadsTo, flags_after, is_left, kept_at, places_from, staying};
ghost use Rattle.explorer.specs.Searching.{IsKept, KeysTell, searched_by};

use crate::progress::Search;
use crate::states::States;
use ddm_types::{NoMemory, Turn};
use std::alloc::Global;

/// A turn of one state leads to another, by their numbers; to none, where it leads to an end.
#[derive(Clone, Copy)]
pub(crate) struct Way {
    from: u32,
    to: Option<u32>,
}

// The number of the state that was reached, where it is kept and no end.
fn reached<M: States>(alloc: Global, states: &M, search: &Search) -> Result<Option<u32>, NoMemory>
    requires tell { KeysTell (M.start states.now) }
    requires kept { IsKept (M.start states.now) search.now }
    requires reached { IsReached (M.start states.now) search.now (M.reached states.now) }
    ensures { IfOk result (LeadsTo (M.start states.now) search.now (M.reached states.now)) }
{
    if states.has_ended() {
        return Ok(None);
    }
    let words = states.key(alloc)?;
    match search.known.find(&words) {
        Some(number) => Ok(Some(number as u32)),
        None => Ok(None),
    }
}

// Puts the ways of a state behind the others: those of its turns.
fn push_ways<M: States>(
    alloc: Global,
    states: &mut M,
    search: &Search,
    from: u32,
    turns: &[Turn],
    ways: &mut Vec<Way>,
) -> Result<(), NoMemory>
    requires tell { KeysTell (M.start states.old) }
    requires kept { IsKept (M.start states.old) search.now }
    requires at { M.at states.old ≡ (kept_at (M.start states.old) search.now from).state }
    requires turns { turns.now ≡ tried_turns (M.at states.old) }
    requires ways { AreWays (M.start states.old) search.now from ways.old.items }
    ensures start { M.start states.new ≡ M.start states.old }
    ensures ways { OnOk result (AreWays (M.start states.old) search.now (from + 1) ways.new.items) }
{
    for turn in turns {
        states.make(*turn)?;
        let to = reached(alloc, states, search)?;
        ways.push(Way { from, to })?;
    }
    Ok(())
}

// The same of the state of a number.
fn look_from<M: States>(
    alloc: Global,
    states: &mut M,
    search: &Search,
    from: u32,
    ways: &mut Vec<Way>,
) -> Result<(), NoMemory>
    requires tell { KeysTell (M.start states.old) }
    requires kept { IsKept (M.start states.old) search.now }
    requires from { from < search.now.next }
    requires ways { AreWays (M.start states.old) search.now from ways.old.items }
    ensures start { M.start states.new ≡ M.start states.old }
    ensures ways { OnOk result (AreWays (M.start states.old) search.now (from + 1) ways.new.items) }
{
    let schedule = search.schedules.schedule(alloc, from)?;
    states.go_to(&schedule)?;
    let turns = states.choices(alloc)?;
    push_ways(alloc, states, search, from, &turns, ways)?;
    Ok(())
}

// The ways of all states.
fn all_ways<M: States>(alloc: Global, states: &mut M, search: &Search) -> Result<Vec<Way>, NoMemory>
    requires tell { KeysTell (M.start states.old) }
    requires kept { IsKept (M.start states.old) search.now }
    ensures start { M.start states.new ≡ M.start states.old }
    ensures ways { IfOk result (λ ways. AreWays (M.start states.old) search.now search.now.next ways.items) }
{
    let mut ways = Vec::new(alloc);
    for from in 0..search.next {
        look_from(alloc, states, search, from, &mut ways)?;
    }
    Ok(ways)
}

// Whether the way leads to a state that is left.
fn leads_on(left: &[bool], way: &Way) -> bool
    ensures { result ≡ is_left left.now way.now.to }
{
    match way.to {
        Some(to) => match left.get(to as usize) {
            Some(flag) => *flag,
            None => false,
        },
        None => false,
    }
}

// A way is looked at: where it doesn't lead to a state that is left, its own state doesn't stay.
fn look_at(stay: &mut Vec<bool>, left: &[bool], way: &Way)
    ensures { stay.new.items ≡ (if is_left left.now way.now.to then stay.old.items else slice_set stay.old.items way.now.from false) }
{
    if leads_on(left, way) {
        return;
    }
    if let Some(flag) = stay.get_mut(way.from as usize) {
        *flag = false;
    }
}

// Of the states that are left, those that have no other way than to such.
fn staying(alloc: Global, left: &[bool], ways: &[Way]) -> Result<Vec<bool>, NoMemory>
    ensures { IfOk result (λ stay. stay.items ≡ staying ways.now left.now) }
{
    let mut stay = Vec::with_capacity(alloc, left.len())?;
    stay.extend_from_slice(left)?;
    for way in ways {
        look_at(&mut stay, left, way);
    }
    Ok(stay)
}

fn are_same(stay: &[bool], left: &[bool]) -> bool
    ensures { result ≡ true → stay.now ≡ left.now }
{
    stay == left
}

// Which states are left after so many rounds.
fn left_after(alloc: Global, count: usize, ways: &[Way]) -> Result<Vec<bool>, NoMemory>
    ensures { IfOk result (λ left. left.items ≡ flags_after count ways.now (replicate count true)) }
{
    let mut left = Vec::from_elem(alloc, true, count)?;
    for _round in 0..count {
        let stay = staying(alloc, &left, ways)?;
        if are_same(&stay, &left) {
            return Ok(left);
        }
        left = stay;
    }
    Ok(left)
}

fn push_if(numbers: &mut Vec<u32>, number: u32, left: bool) -> Result<(), NoMemory>
    ensures { OnOk result (numbers.new.items ≡ numbers.old.items ++ (if left then number ∷ [] else [])) }
{
    if left {
        numbers.push(number)?;
    }
    Ok(())
}

// The numbers of those that are left.
fn numbers(alloc: Global, left: &[bool]) -> Result<Vec<u32>, NoMemory>
    requires { length left.now ≤ 1048576 }
    ensures { IfOk result (λ numbers. numbers.items ≡ places_from 0 left.now) }
{
    let mut numbers = Vec::new(alloc);
    for number in 0..left.len() {
        push_if(&mut numbers, number as u32, left[number])?;
    }
    Ok(numbers)
}

/// The numbers of the lost states, in order, where no state was without a place.
pub fn lost_states<M: States>(
    alloc: Global,
    states: &mut M,
    search: &Search,
) -> Result<Vec<u32>, NoMemory>
    requires tell { KeysTell (M.start states.old) }
    requires kept { IsKept (M.start states.old) search.now }
    ensures start { M.start states.new ≡ M.start states.old }
    ensures lost { IfOk result
        (λ numbers. map (kept_at (M.start states.old) search.now) numbers.items
        ≡ lost (quiet_space same_state) (searched_by (M.start states.old) search.now)) }
    ensures few { IfOk result (λ numbers. AllByRecursion (λ number. number < search.now.next) numbers.items) }
{
    let ways = all_ways(alloc, states, search)?;
    let left = left_after(alloc, search.next as usize, &ways)?;
    let lost = numbers(alloc, &left)?;
    Ok(lost)
}
