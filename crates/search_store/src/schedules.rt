//! The turns that led to each state that a search knows.

ghost use Rattle.std.specs.Prelude.{◌≡◌, ◌<◌, ◌≤◌, ◌++◌, ◌∷◌, [], Some, length, slice_get, IfOk, OnErr, OnOk};
ghost use Rattle.search_store.specs.Schedule.{gone_on};

use ddm_types::{NoMemory, Turn};
use std::alloc::Global;
use std::marker::Model;

/// One turn more than led to an earlier state.
#[derive(Clone, Copy)]
pub struct Step {
    pub(crate) parent: u32,
    pub(crate) turn: Turn,
}

/// The schedule of each state by its number. State 0 is the start, which no turn led to.
#[derive(Drop)]
pub struct Schedules {
    steps: Vec<Step>,
}

impl Model for Schedules {
    ghost use Rattle.std.specs.Prelude.{List};
    ghost use Rattle.ddm_types.specs.declared.turns.Turn.{Turn};
    ghost use Rattle.search_store.specs.Schedule.{schedules_of, AreEarlier};

    ghost Value = { List (List Turn) };

    ghost view = { λ s. schedules_of s.steps.items };

    ghost invariant = { λ s. AreEarlier 1 s.steps.items };
}

impl Schedules {
    /// That of the start alone.
    pub fn new(alloc: Global) -> Self
        ensures { result ≡ [] ∷ [] }
    {
        Schedules {
            steps: Vec::new(alloc),
        }
    }

    /// How many states there are.
    pub fn len(&self) -> usize
        ensures { result ≡ length self.now }
    {
        self.steps.len() + 1
    }

    /// The state behind the others: one turn more than led to an earlier one.
    pub fn add(&mut self, parent: u32, turn: Turn) -> Result<(), NoMemory>
        requires { parent < length self.old }
        ensures added { OnOk result (self.new ≡ self.old ++ gone_on self.old parent turn ∷ []) }
        ensures same { OnErr result (self.new ≡ self.old) }
    {
        self.steps.push(Step { parent, turn })?;
        Ok(())
    }

    /// The turns that led to a state.
    pub fn schedule(&self, alloc: Global, number: u32) -> Result<Vec<Turn>, NoMemory>
        requires { number < length self.now }
        ensures turns { IfOk result (λ turns. slice_get self.now number ≡ Some turns.items) }
        ensures few { IfOk result (λ turns. length turns.items ≤ number) }
    {
        let mut turns = Vec::new(alloc);
        let mut at = number;
        while at > 0 {
            let step = self.steps[at as usize - 1];
            turns.push(step.turn)?;
            at = step.parent;
        }
        turns.reverse();
        Ok(turns)
    }
}
