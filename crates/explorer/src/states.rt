//! What a search asks of the states that it goes through.

ghost use Rattle.std.specs.Prelude.{◌≡◌, ◌≤◌, IfOk, OnOk, length};
ghost use Rattle.tree_model.specs.State.Values.{MachineValue};
ghost use Rattle.tree_model.specs.Turns.Machine.{run_of, turn_of};
ghost use Rattle.outcome_model.specs.Halted.{all_halted};
ghost use Rattle.outcome_model.specs.Outcome.{outcome_of};
ghost use Rattle.search_model.specs.Tried.{tried_turns};
ghost use Rattle.state_keys.specs.Key.{state_key};

use ddm_types::{NoMemory, Turn};
use std::alloc::Global;

/// A machine that can be put into each of its states: `start` is the machine before the first turn, `at` the one that was gone to, and
/// `reached` that, or the one after a turn from there.
pub trait States {
    ghost start: { Self → MachineValue };

    ghost at: { Self → MachineValue };

    ghost reached: { Self → MachineValue };

    /// Goes to the machine after these turns.
    fn go_to(&mut self, schedule: &[Turn]) -> Result<(), NoMemory>
        requires { length schedule.now ≤ 1048576 }
        ensures start { start self.new ≡ start self.old }
        ensures at { OnOk result (at self.new ≡ (run_of schedule.now (start self.old)).machine) }
        ensures reached { OnOk result (reached self.new ≡ at self.new) };

    /// The turns that are tried of the machine that was gone to.
    fn choices(&mut self, alloc: Global) -> Result<Vec<Turn>, NoMemory>
        ensures start { start self.new ≡ start self.old }
        ensures at { at self.new ≡ at self.old }
        ensures turns { IfOk result (λ turns. turns.items ≡ tried_turns (at self.old)) };

    /// Makes a turn from the machine that was gone to.
    fn make(&mut self, turn: Turn) -> Result<(), NoMemory>
        ensures start { start self.new ≡ start self.old }
        ensures at { at self.new ≡ at self.old }
        ensures reached { OnOk result (reached self.new ≡ (turn_of turn (at self.old)).machine) };

    /// Every hart has halted.
    fn has_ended(&self) -> bool
        ensures { result ≡ all_halted (reached self.now) };

    fn outcome(&self, alloc: Global) -> Result<Vec<u8>, NoMemory>
        ensures { IfOk result (λ text. text.items ≡ outcome_of (reached self.now)) };

    /// The words by which its state is told from others.
    fn key(&self, alloc: Global) -> Result<Vec<u32>, NoMemory>
        ensures { IfOk result (λ words. words.items ≡ state_key (reached self.now)) };
}
