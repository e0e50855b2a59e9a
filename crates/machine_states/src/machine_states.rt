//! A machine that is put into each of its states.

ghost use Rattle.std.specs.Prelude.{◌≡◌, ◌<◌, ◌≤◌, true, false, IfOk, OnOk, find};
ghost use Rattle.ddm_types.specs.declared.turns.Turn.{Turn};
ghost use Rattle.tree_model.specs.Turns.Machine.{names_part};
ghost use Rattle.any_runs.specs.AnyMachine.Any.{machine_state};
ghost use Rattle.any_runs.specs.AnyMachine.Kind.{kind_of};
ghost use Rattle.outcomes.specs.RecordingModel.Doing.{does_something};
ghost use Rattle.outcomes.specs.OutcomeModel.Halted.{all_halted};
ghost use Rattle.explorer.specs.SearchModel.Machines.{has_ways};
ghost use Rattle.explorer.specs.SearchModel.Tried.{doing_turns, is_quiet};
ghost use Rattle.explorer.specs.Searching.{KeysTell};
ghost use Rattle.machine_states.specs.Listed.{first_victims};
ghost use Rattle.machine_states.specs.Ready.{CanBegin};

use crate::copying::copy_roomy;
use crate::keys::push_key;
use crate::listed::listed;
use crate::making::make_turns;
use crate::named::{has_halted, is_told, names};
use crate::turning::judge_turn;
use any_runs::of_any_machine::AnyMachine;
use ddm_types::{HartNo, NoMemory, Turn};
use explorer::States;
use outcomes::{all_halted, put_outcome};
use std::alloc::Global;
use std::marker::Model;

/// Three machines of one tree and image: the start, the one that was gone to, and the one that was reached from there.
#[derive(Drop)]
pub struct MachineStates {
    start: AnyMachine,
    at: AnyMachine,
    reached: AnyMachine,
    /// How many turns led to the one that was gone to.
    made: u32,
}

impl Model for MachineStates {
    ghost use Rattle.any_runs.specs.AnyMachine.Any.{machine_state};
    ghost use Rattle.machine_states.specs.Ready.{AreStates, StatesValue, states_code};

    ghost Value = { StatesValue };

    ghost coded = { states_code };

    ghost view = { λ s. record {
      start = machine_state s.start;
      at = machine_state s.at;
      reached = machine_state s.reached;
    } };

    ghost invariant = { λ s. AreStates s.made s.start s.at s.reached };
}

// The turn of a hart that names the first way.
fn first_turn(leaf: u32) -> Turn
    ensures { result ≡ Turn.Hart leaf 0 }
{
    let hart = HartNo(leaf);
    Turn::Hart { hart, victim: 0 }
}

impl MachineStates {
    /// The states of a machine that has made no turn. All three are of one tree and image.
    pub fn new(start: AnyMachine, at: AnyMachine, reached: AnyMachine) -> Self
        requires can { CanBegin start }
        requires alike_at { machine_state at ≡ machine_state start }
        requires kind_at { kind_of at ≡ kind_of start }
        requires alike_reached { machine_state reached ≡ machine_state start }
        requires kind_reached { kind_of reached ≡ kind_of start }
        ensures { result.start ≡ machine_state start }
    {
        MachineStates {
            start,
            at,
            reached,
            made: 0,
        }
    }

    /// What a search asks of the start: words tell its states, each leaf has a way, and a hart runs. It does nothing.
    pub fn begins(&self)
        ensures tell { KeysTell self.now.start.machine }
        ensures ways { has_ways self.now.start.machine ≡ true }
        ensures runs { all_halted self.now.start.machine ≡ false }
    {
        self.start.counts();
    }

    // The machine that was gone to is reached again, with room for a turn.
    fn turn_back(&mut self) -> Result<(), NoMemory>
        ensures start { self.new.start ≡ self.old.start }
        ensures at { self.new.at ≡ self.old.at }
        ensures machine { OnOk result (self.new.reached.machine ≡ self.old.at.machine) }
        ensures turns { OnOk result (self.new.reached.turns ≤ 1048576) }
        ensures spare { OnOk result (0 < self.new.reached.spare) }
    {
        copy_roomy(&mut self.reached, &self.at, self.made + 1)
    }

    // Makes a turn from the machine that was gone to, and says whether it did something, and whether it was quiet.
    fn judge_made(&mut self, turn: Turn) -> Result<(bool, bool), NoMemory>
        requires { names_part turn self.old.at.machine ≡ true }
        ensures start { self.new.start ≡ self.old.start }
        ensures at { self.new.at ≡ self.old.at }
        ensures does { IfOk result (λ r. r.0 ≡ does_something turn self.old.at.machine) }
        ensures quiet { IfOk result (λ r. r.1 ≡ is_quiet self.old.at.machine turn) }
    {
        let halted = has_halted(&self.at, &turn);
        self.turn_back()?;
        Ok(judge_turn(&mut self.reached, &turn, halted))
    }

    // Whether a turn from the machine that was gone to does something, and whether it is quiet. Most turns of a bus
    // needn't be made for it.
    fn judge(&mut self, turn: Turn) -> Result<(bool, bool), NoMemory>
        ensures start { self.new.start ≡ self.old.start }
        ensures at { self.new.at ≡ self.old.at }
        ensures does { IfOk result (λ r. r.0 ≡ does_something turn self.old.at.machine) }
        ensures quiet { IfOk result (λ r. r.1 ≡ is_quiet self.old.at.machine turn) }
    {
        if !names(&self.at, &turn) {
            return Ok((false, false));
        }
        if is_told(&turn) {
            return Ok((self.at.would_grant(turn), false));
        }
        self.judge_made(turn)
    }

    // The first quiet turn of a hart.
    fn quiet_turn(&mut self) -> Result<Option<Turn>, NoMemory>
        ensures start { self.new.start ≡ self.old.start }
        ensures at { self.new.at ≡ self.old.at }
        ensures turn { IfOk result
            (λ turn. turn ≡ find (is_quiet self.old.at.machine) (first_victims self.old.at.machine)) }
    {
        for leaf in 0..self.at.counts().leaves {
            let (_, quiet) = self.judge(first_turn(leaf))?;
            if quiet {
                return Ok(Some(first_turn(leaf)));
            }
        }
        Ok(None)
    }

    // The turns that do something.
    fn doing_turns(&mut self, alloc: Global) -> Result<Vec<Turn>, NoMemory>
        ensures start { self.new.start ≡ self.old.start }
        ensures at { self.new.at ≡ self.old.at }
        ensures turns { IfOk result (λ turns. turns.items ≡ doing_turns self.old.at.machine) }
    {
        let listed = listed(alloc, &self.at)?;
        let mut turns = Vec::new(alloc);
        for turn in &listed {
            let (does, _) = self.judge(*turn)?;
            if does {
                turns.push(*turn)?;
            }
        }
        Ok(turns)
    }
}

impl States for MachineStates {
    ghost start = { λ s. s.start.machine };

    ghost at = { λ s. s.at.machine };

    ghost reached = { λ s. s.reached.machine };

    fn go_to(&mut self, schedule: &[Turn]) -> Result<(), NoMemory> {
        let count = schedule.len() as u32;
        copy_roomy(&mut self.at, &self.start, count)?;
        make_turns(&mut self.at, schedule);
        self.made = count;
        self.turn_back()
    }

    fn choices(&mut self, alloc: Global) -> Result<Vec<Turn>, NoMemory> {
        match self.quiet_turn()? {
            Some(turn) => Ok(Vec::from_slice(alloc, &[turn])?),
            None => self.doing_turns(alloc),
        }
    }

    fn make(&mut self, turn: Turn) -> Result<(), NoMemory> {
        self.turn_back()?;
        make_turns(&mut self.reached, &[turn]);
        Ok(())
    }

    fn has_ended(&self) -> bool {
        all_halted(&self.reached)
    }

    fn outcome(&self, alloc: Global) -> Result<Vec<u8>, NoMemory> {
        let mut text = Vec::new(alloc);
        put_outcome(&mut text, &self.reached)?;
        Ok(text)
    }

    fn key(&self, alloc: Global) -> Result<Vec<u32>, NoMemory> {
        let mut words = Vec::new(alloc);
        push_key(alloc, &self.reached, &mut words)?;
        Ok(words)
    }
}
