//! What a search keeps.

ghost use Rattle.std.specs.Prelude.{◌≡◌, ◌+◌, ◌<◌, ◌≤◌, ◌||◌, nat_le, IfOk, Some, length, slice_get, if◌then◌else◌};

use crate::line::Line;
use ddm_types::{NoMemory, Turn};
use search_store::{KnownStates, Schedules};
use std::alloc::Global;
use std::marker::Model;

/// A breadth first search. States are numbered in the order in which they were come to; those below `next` were taken up.
#[derive(Drop)]
pub struct Search {
    pub known: KnownStates,
    pub schedules: Schedules,
    pub found: Vec<Line>,
    pub jams: Vec<Line>,
    pub next: u32,
    /// A state had no place, and the search ended there.
    pub full: bool,
}

impl Model for Search {
    ghost use Rattle.explorer.specs.Searching.{SearchState};

    ghost Value = { SearchState };

    ghost view = { λ s. record {
      keys = s.known;
      schedules = s.schedules;
      found = s.found.items;
      jams = s.jams.items;
      next = s.next;
      full = s.full;
    } };
}

impl Search {
    /// No state is to be taken up.
    pub(crate) fn rests(&self) -> bool
        ensures { result ≡ (self.now.full || nat_le (length self.now.schedules) self.now.next) }
    {
        self.full || self.schedules.len() <= self.next as usize
    }

    /// The turns that led to the state that is taken up next.
    pub(crate) fn next_schedule(&self, alloc: Global) -> Result<Vec<Turn>, NoMemory>
        requires { self.now.next < length self.now.schedules }
        ensures turns { IfOk result (λ turns. slice_get self.now.schedules self.now.next ≡ Some turns.items) }
        ensures few { IfOk result (λ turns. length turns.items ≤ self.now.next) }
    {
        self.schedules.schedule(alloc, self.next)
    }

    /// Goes on to the next state, unless the search was ended.
    pub(crate) fn move_on(&mut self)
        requires { self.old.next < 1048576 }
        ensures { self.new ≡ (if self.old.full then self.old else record self.old { next = self.old.next + 1 }) }
    {
        if !self.full {
            self.next += 1;
        }
    }
}
