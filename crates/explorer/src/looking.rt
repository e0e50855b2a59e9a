//! The search: one state is taken up after the other, and what each of its turns leads to is looked at.

ghost use Rattle.std.specs.Prelude.{◌≡◌, ℕ, ◌<◌, ◌≤◌, true, false, ◌++◌, ◌∷◌, [], IfOk, OnOk, length};
ghost use Rattle.outcome_model.specs.Halted.{all_halted};
ghost use Rattle.search_laws.specs.Claims.{IsRight};
ghost use Rattle.search_laws.specs.Search.{begun, looked_at, looked_through, next_taken_up, searched, with_jam, with_state};
ghost use Rattle.search_model.specs.Machines.{has_ways, quiet_space};
ghost use Rattle.search_model.specs.Tried.{tried_turns};
ghost use Rattle.state_keys.specs.Same.{same_state};
ghost use Rattle.explorer.specs.Searching.{IsKept, KeysTell, TakesUp, kept_by, searched_by, state_by};

use crate::line::{Line, note};
use crate::progress::Search;
use crate::states::States;
use ddm_types::{NoMemory, Turn};
use search_store::{KnownStates, Schedules};
use std::alloc::Global;

// A schedule and a turn behind it.
fn gone_on(alloc: Global, schedule: &[Turn], turn: Turn) -> Result<Vec<Turn>, NoMemory>
    ensures { IfOk result (λ turns. turns.items ≡ schedule.now ++ turn ∷ []) }
{
    let mut turns = Vec::with_capacity(alloc, schedule.len())?;
    turns.extend_from_slice(schedule)?;
    turns.push(turn)?;
    Ok(turns)
}

// What a search keeps before the first state is taken up.
fn begin<M: States>(alloc: Global, states: &mut M) -> Result<Search, NoMemory>
    ensures start { M.start states.new ≡ M.start states.old }
    ensures begun { IfOk result
        (λ s. (most : ℕ) →
        searched_by (M.start states.old) s ≡ begun (quiet_space same_state) most (M.start states.old)) }
    ensures kept { IfOk result (λ s. IsKept (M.start states.old) s) }
{
    states.go_to(&[])?;
    let mut known = KnownStates::new(alloc);
    known.add(states.key(alloc)?)?;
    Ok(Search {
        known,
        schedules: Schedules::new(alloc),
        found: Vec::new(alloc),
        jams: Vec::new(alloc),
        next: 0,
        full: false,
    })
}

impl Search {
    // Keeps the state that was reached by a turn from the one that is taken up, or finds no place for it.
    fn keep<M: States>(
        &mut self,
        alloc: Global,
        states: &M,
        schedule: &[Turn],
        turn: Turn,
        most: u32,
    ) -> Result<(), NoMemory>
        requires most { most ≤ 1048576 }
        requires tell { KeysTell (M.start states.now) }
        requires taking { TakesUp (M.start states.now) schedule.now self.old }
        requires reached { M.reached states.now ≡ state_by (M.start states.now) (schedule.now ++ turn ∷ []) }
        ensures taking { OnOk result (TakesUp (M.start states.now) schedule.now self.new) }
        ensures searched { OnOk result
            (searched_by (M.start states.now) self.new
            ≡ with_state (quiet_space same_state) most
            (kept_by (M.start states.now) (schedule.now ++ turn ∷ []))
            (searched_by (M.start states.now) self.old)) }
    {
        let words = states.key(alloc)?;
        if self.known.has(&words) {
            return Ok(());
        }
        if self.schedules.len() < most as usize {
            self.known.add(words)?;
            self.schedules.add(self.next, turn)?;
        } else {
            self.full = true;
        }
        Ok(())
    }

    // Looks at what a turn leads to from the state that is taken up.
    fn look_at<M: States>(
        &mut self,
        alloc: Global,
        states: &mut M,
        schedule: &[Turn],
        turn: Turn,
        most: u32,
    ) -> Result<(), NoMemory>
        requires most { most ≤ 1048576 }
        requires tell { KeysTell (M.start states.old) }
        requires taking { TakesUp (M.start states.old) schedule.now self.old }
        requires at { M.at states.old ≡ state_by (M.start states.old) schedule.now }
        ensures start { M.start states.new ≡ M.start states.old }
        ensures at { M.at states.new ≡ M.at states.old }
        ensures taking { OnOk result (TakesUp (M.start states.old) schedule.now self.new) }
        ensures searched { OnOk result
            (searched_by (M.start states.old) self.new
            ≡ looked_at (quiet_space same_state) most
            (kept_by (M.start states.old) (schedule.now ++ turn ∷ []))
            (searched_by (M.start states.old) self.old)) }
    {
        if self.full {
            return Ok(());
        }
        states.make(turn)?;
        if !states.has_ended() {
            return self.keep(alloc, states, schedule, turn, most);
        }
        let line = Line {
            outcome: states.outcome(alloc)?,
            schedule: gone_on(alloc, schedule, turn)?,
        };
        note(&mut self.found, line)
    }

    // Looks through the turns of the state that is taken up.
    fn look_through<M: States>(
        &mut self,
        alloc: Global,
        states: &mut M,
        schedule: &[Turn],
        turns: &[Turn],
        most: u32,
    ) -> Result<(), NoMemory>
        requires most { most ≤ 1048576 }
        requires tell { KeysTell (M.start states.old) }
        requires taking { TakesUp (M.start states.old) schedule.now self.old }
        requires at { M.at states.old ≡ state_by (M.start states.old) schedule.now }
        ensures start { M.start states.new ≡ M.start states.old }
        ensures taking { OnOk result (TakesUp (M.start states.old) schedule.now self.new) }
        ensures searched { OnOk result
            (searched_by (M.start states.old) self.new
            ≡ looked_through (quiet_space same_state) most (kept_by (M.start states.old) schedule.now)
            turns.now (searched_by (M.start states.old) self.old)) }
    {
        for turn in turns {
            self.look_at(alloc, states, schedule, *turn, most)?;
        }
        Ok(())
    }

    // Notes a jam, where no turn of the state is tried.
    fn note_jam<M: States>(
        &mut self,
        alloc: Global,
        states: &mut M,
        schedule: &[Turn],
        turns: &[Turn],
    ) -> Result<(), NoMemory>
        requires few { length schedule.now ≤ 1048576 }
        requires taking { TakesUp (M.start states.old) schedule.now self.old }
        requires at { M.at states.old ≡ state_by (M.start states.old) schedule.now }
        requires turns { turns.now ≡ tried_turns (M.at states.old) }
        ensures start { M.start states.new ≡ M.start states.old }
        ensures at { OnOk result (M.at states.new ≡ M.at states.old) }
        ensures taking { OnOk result (TakesUp (M.start states.old) schedule.now self.new) }
        ensures searched { OnOk result
            ((most : ℕ) →
            searched_by (M.start states.old) self.new
            ≡ with_jam (quiet_space same_state) most (kept_by (M.start states.old) schedule.now)
            (searched_by (M.start states.old) self.old)) }
    {
        if !turns.is_empty() {
            return Ok(());
        }
        states.go_to(schedule)?;
        let mut copy = Vec::with_capacity(alloc, schedule.len())?;
        copy.extend_from_slice(schedule)?;
        let line = Line {
            outcome: states.outcome(alloc)?,
            schedule: copy,
        };
        note(&mut self.jams, line)
    }

    // Takes up the next state, if there is one and the search wasn't ended.
    fn take_up<M: States>(
        &mut self,
        alloc: Global,
        states: &mut M,
        most: u32,
    ) -> Result<(), NoMemory>
        requires most { most ≤ 1048576 }
        requires tell { KeysTell (M.start states.old) }
        requires kept { IsKept (M.start states.old) self.old }
        ensures start { M.start states.new ≡ M.start states.old }
        ensures kept { OnOk result (IsKept (M.start states.old) self.new) }
        ensures searched { OnOk result
            (searched_by (M.start states.old) self.new
            ≡ next_taken_up (quiet_space same_state) most (searched_by (M.start states.old) self.old)) }
    {
        if self.rests() {
            return Ok(());
        }
        let schedule = self.next_schedule(alloc)?;
        states.go_to(&schedule)?;
        let turns = states.choices(alloc)?;
        self.note_jam(alloc, states, &schedule, &turns)?;
        self.look_through(alloc, states, &schedule, &turns, most)?;
        self.move_on();
        Ok(())
    }
}

/// Searches all states that turns lead to, and keeps so many of them at most. What is found is what the search of the tables finds.
pub fn search<M: States>(alloc: Global, states: &mut M, most: u32) -> Result<Search, NoMemory>
    requires most { most ≤ 1048576 }
    requires tell { KeysTell (M.start states.old) }
    ensures start { M.start states.new ≡ M.start states.old }
    ensures searched { IfOk result (λ s. searched_by (M.start states.old) s ≡ searched (quiet_space same_state) most (M.start states.old)) }
    ensures kept { IfOk result (λ s. IsKept (M.start states.old) s) }
    ensures right { 0 < most → has_ways (M.start states.old) ≡ true → all_halted (M.start states.old) ≡ false →
        IfOk result (λ s. IsRight (quiet_space same_state) (M.start states.old)
        (searched_by (M.start states.old) s)) }
{
    let mut search = begin(alloc, states)?;
    for _taken in 0..most {
        search.take_up(alloc, states, most)?;
    }
    Ok(search)
}
