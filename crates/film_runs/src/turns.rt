//! Turns that are made and filmed.

ghost use Rattle.std.specs.Prelude.{◌≡◌, ◌<◌, ◌++◌, [], ◌∷◌, ℕ, IfOk, IfSome, OnOk, is_some, true};
ghost use Rattle.film_runs.specs.TextModel.Run.{no_counts};
ghost use Rattle.film_runs.specs.AnyMachine.Any.{machine_state, state_in};
ghost use Rattle.film_runs.specs.AnyRuns.Run.{AreBelow, CanRun, NameParts, counts_in, ran, with_room};
ghost use Rattle.film_runs.specs.Counts.{sum};
ghost use Rattle.film_runs.specs.DdmText.Adds.{Adds};
ghost use Rattle.film_runs.specs.Film.Filmed.{IsFilmed};
ghost use Rattle.film_runs.specs.HartAlone.{CameFrom, hart_alone, hart_changed, is_own};
ghost use Rattle.film_runs.specs.Resting.{one_rests};
ghost use Rattle.film_runs.specs.TreeModel.State.Shape.{IsShaped};
ghost use Rattle.film_runs.specs.TreeModel.Turns.Machine.{hart_of, names_part, now_of, run_of, turn_of};
ghost use Rattle.film_runs.specs.DdmTypes.declared.turns.Turn.{Turn};
ghost use Rattle.recording_model.specs.Doing.{does_by, had_halted, is_halted};
ghost use Rattle.film_runs.specs.FilmModel.Film.{turn_film, turns_film};
ghost use Rattle.film_runs.specs.FilmModel.Part.{changed};
ghost use Rattle.film_runs.specs.FilmModel.Still.{still as still_of};
ghost use Rattle.film_runs.specs.ValueLaws.Values.{HasForm};

use crate::of_any_machine::{AnyMachine, Machines};
use crate::of_ddm_types::{HartNo, NoMemory, Turn, TurnAnswer};
use ddm_types::Effect;
use film::of_any_runs::{RunCounts, run};
use film::{Still, StillRoom, push_changed, put_changed, take_hart, take_still};
use report::push_trace;
use std::alloc::Global;
use std::mem::swap;

/// The still before the next turn, and what the film of a turn is made with.
#[derive(Drop)]
pub struct Reel {
    pub before: Still,
    after: Still,
    room: StillRoom,
    answers: Vec<TurnAnswer>,
}

impl Reel {
    /// No still yet.
    pub fn new(alloc: Global) -> Reel
        ensures { result.before ≡ [] }
    {
        Reel {
            before: Still::new(alloc),
            after: Still::new(alloc),
            room: StillRoom::new(alloc),
            answers: Vec::new(alloc),
        }
    }

    /// Takes the still of a machine before its first turn.
    pub fn begin(&mut self, machine: &AnyMachine, levels: &[u32]) -> Result<(), NoMemory>
        requires { IsFilmed levels.now (machine_state machine.now).machine }
        ensures { OnOk result (self.new.before ≡ still_of (machine_state machine.now).machine) }
    {
        take_still(&mut self.before, &mut self.room, machine, levels)
    }
}

// Whether a hart has halted.
#[tactic(auto, using(crate::proofs::Resting::leaf_there))]
fn halted_among<const WORDS: usize>(machine: &Machines<WORDS>, hart: HartNo) -> bool
    requires shape { IsShaped (state_in machine.now).machine }
    requires leaf { is_some (now_of hart (state_in machine.now).machine) ≡ true }
    ensures { result ≡ is_halted (hart_of hart (state_in machine.now).machine) }
{
    machine.hart(hart).halted().is_some()
}

// The same, whatever the width.
fn is_halted(machine: &AnyMachine, hart: HartNo) -> bool
    requires shape { IsShaped (machine_state machine.now).machine }
    requires leaf { is_some (now_of hart (machine_state machine.now).machine) ≡ true }
    ensures { result ≡ is_halted (hart_of hart (machine_state machine.now).machine) }
{
    match machine {
        AnyMachine::Narrow(machine) => halted_among(machine, hart),
        AnyMachine::Wide(machine) => halted_among(machine, hart),
    }
}

// Whether the hart whose turn it is has halted; a bus has none.
fn had_halted(machine: &AnyMachine, turn: &Turn) -> bool
    requires shape { IsShaped (machine_state machine.now).machine }
    requires named { names_part turn.now (machine_state machine.now).machine ≡ true }
    ensures { result ≡ had_halted turn.now (machine_state machine.now).machine }
{
    match *turn {
        Turn::Hart { hart, .. } => is_halted(machine, hart),
        Turn::Down { .. } | Turn::Request { .. } | Turn::Reply { .. } | Turn::Leave { .. } => false,
    }
}

// The same of one turn.
fn one_halted(machine: &AnyMachine, turns: &[Turn]) -> bool
    requires shape { IsShaped (machine_state machine.now).machine }
    requires named { NameParts turns.now (machine_state machine.now).machine }
    ensures { (turn : Turn) → turns.now ≡ turn ∷ [] → result ≡ had_halted turn (machine_state machine.now).machine }
{
    match turns {
        [turn] => had_halted(machine, turn),
        _ => false,
    }
}

// Whether a turn that answers so did something, where its hart had halted before or not.
fn does_by(answer: &TurnAnswer, halted: bool) -> bool
    ensures { result ≡ does_by answer.now halted }
{
    match answer {
        TurnAnswer::Waiting(_) | TurnAnswer::Empty | TurnAnswer::Busy(_) => false,
        TurnAnswer::Halted(_) => !halted,
        TurnAnswer::Retired(_) | TurnAnswer::Issued(..) | TurnAnswer::Granted(_) => true,
    }
}

// Whether there is one answer, and its turn did nothing.
fn one_rests(answers: &[TurnAnswer], halted: bool) -> bool
    ensures { result ≡ one_rests halted answers.now }
{
    match answers {
        [answer] => !does_by(answer, halted),
        _ => false,
    }
}

// Whether an answer of a hart's turn says that it changed the hart alone.
fn hart_alone(answer: &TurnAnswer) -> bool
    ensures { result ≡ hart_alone answer.now }
{
    match answer {
        TurnAnswer::Retired(op) => is_own(&op.effect),
        TurnAnswer::Halted(_) => true,
        TurnAnswer::Issued(..)
        | TurnAnswer::Waiting(_)
        | TurnAnswer::Granted(_)
        | TurnAnswer::Empty
        | TurnAnswer::Busy(_) => false,
    }
}

// Whether an instruction of this effect changes no word and no reservation.
fn is_own(effect: &Effect) -> bool
    ensures { result ≡ is_own effect.now }
{
    match effect {
        Effect::Plain | Effect::Put { .. } | Effect::Load { .. } => true,
        Effect::Store { .. }
        | Effect::Lr { .. }
        | Effect::ScOk { .. }
        | Effect::ScFail { .. }
        | Effect::Amo { .. } => false,
    }
}

// The hart that a turn changed, where it changed that alone.
fn hart_changed(turn: &Turn, answers: &[TurnAnswer]) -> Option<HartNo>
    ensures { result ≡ hart_changed turn.now answers.now }
{
    match *turn {
        Turn::Hart { hart, .. } => match answers {
            [answer] if hart_alone(answer) => Some(hart),
            _ => None,
        },
        Turn::Down { .. } | Turn::Request { .. } | Turn::Reply { .. } | Turn::Leave { .. } => None,
    }
}

// The same of one turn.
fn one_changed(turns: &[Turn], answers: &[TurnAnswer]) -> Option<HartNo>
    ensures { (turn : Turn) → turns.now ≡ turn ∷ [] → result ≡ hart_changed turn answers.now }
{
    match turns {
        [turn] => hart_changed(turn, answers),
        _ => None,
    }
}

// Puts at the end of a text the parts of a hart that are different now, where nothing else is. Of each leaf there are 2 parts of the pc
// and the halt, 31 of registers, one of each item, and 4 of what waits.
fn film_hart(
    text: &mut Vec<u8>,
    reel: &mut Reel,
    machine: &AnyMachine,
    hart: HartNo,
) -> Result<(), NoMemory>
    requires formed { (most : ℕ) × HasForm most (machine_state machine.now).machine }
    requires came { CameFrom hart reel.old.before (machine_state machine.now).machine }
    ensures text { OnOk result
        (Adds text.old.items text.new.items (changed reel.old.before (still_of (machine_state machine.now).machine))) }
    ensures before { OnOk result (reel.new.before ≡ still_of (machine_state machine.now).machine) }
{
    // The shape and the rules that every machine keeps, on which it rests where a part is.
    machine.counts();
    let _parts = reel.before.len();
    let from = hart.0 as usize * (37 + machine.items().len() as usize);
    take_hart(&mut reel.after, &mut reel.room, machine, hart)?;
    put_changed(text, &mut reel.before, from, &reel.after)?;
    Ok(())
}

// Puts at the end of a text the parts that are different now, whatever changed.
fn film_all(
    text: &mut Vec<u8>,
    reel: &mut Reel,
    machine: &AnyMachine,
    levels: &[u32],
) -> Result<(), NoMemory>
    requires { IsFilmed levels.now (machine_state machine.now).machine }
    ensures text { OnOk result
        (Adds text.old.items text.new.items
        (changed reel.old.before (still_of (machine_state machine.now).machine))) }
    ensures before { OnOk result (reel.new.before ≡ still_of (machine_state machine.now).machine) }
{
    take_still(&mut reel.after, &mut reel.room, machine, levels)?;
    push_changed(text, &reel.before, &reel.after)?;
    swap(&mut reel.before, &mut reel.after);
    Ok(())
}

// Puts at the end of a text the parts that are different now. Where it is known that nothing changed, or that only a hart did, not all
// parts are read.
fn film_change(
    text: &mut Vec<u8>,
    reel: &mut Reel,
    machine: &AnyMachine,
    levels: &[u32],
    rested: bool,
    hart: Option<HartNo>,
) -> Result<(), NoMemory>
    requires filmed { IsFilmed levels.now (machine_state machine.now).machine }
    requires rested { rested ≡ true → reel.old.before ≡ still_of (machine_state machine.now).machine }
    requires came { IfSome hart (λ k. CameFrom k reel.old.before (machine_state machine.now).machine) }
    ensures text { OnOk result
        (Adds text.old.items text.new.items
        (changed reel.old.before (still_of (machine_state machine.now).machine))) }
    ensures before { OnOk result (reel.new.before ≡ still_of (machine_state machine.now).machine) }
{
    if rested {
        return Ok(());
    }
    match hart {
        Some(hart) => film_hart(text, reel, machine, hart),
        None => film_all(text, reel, machine, levels),
    }
}

/// Makes a turn, puts its film at the end of a text, and gives what it came to. The turn has this number, counted from 0.
pub fn film_turn(
    text: &mut Vec<u8>,
    reel: &mut Reel,
    machine: &mut AnyMachine,
    levels: &[u32],
    number: u32,
    turn: Turn,
) -> Result<RunCounts, NoMemory>
    requires shape { IsShaped (machine_state machine.old).machine }
    requires filmed { IsFilmed levels.now (machine_state machine.old).machine }
    requires named { names_part turn (machine_state machine.old).machine ≡ true }
    requires few { (machine_state machine.old).turns < 4294967295 }
    requires before { reel.old.before ≡ still_of (machine_state machine.old).machine }
    ensures text { OnOk result (text.new.items ≡ text.old.items ++ turn_film number turn (machine_state machine.old).machine) }
    ensures machine { OnOk result (machine_state machine.new ≡ ran (turn ∷ []) (with_room 1 (machine_state machine.old))) }
    ensures before { OnOk result (reel.new.before ≡ still_of (turn_of turn (machine_state machine.old).machine).machine) }
    ensures filmed { OnOk result (IsFilmed levels.now (turn_of turn (machine_state machine.old).machine).machine) }
    ensures counts { IfOk result (λ counts. counts ≡ counts_in (turn ∷ []) (machine_state machine.old)) }
{
    // The rules that every machine keeps, on which it rests how many parts a hart has.
    machine.counts();
    let turns = [turn];
    let halted = one_halted(machine, &turns);
    reel.answers.clear();
    let counts = run(machine, &turns, &mut reel.answers, true)?;
    push_trace(text, number, &turns, &reel.answers)?;
    let rested = one_rests(&reel.answers, halted);
    let hart = one_changed(&turns, &reel.answers);
    film_change(text, reel, machine, levels, rested, hart)?;
    Ok(counts)
}

/// Before the first turn.
fn no_counts() -> RunCounts
    ensures { result ≡ no_counts }
{
    RunCounts {
        turns: 0,
        retired: 0,
        granted: 0,
        busy: 0,
    }
}

/// What one turn more came to.
fn add_counts(counts: &mut RunCounts, more: RunCounts)
    requires below { AreBelow 4294967295 counts.old }
    requires one { AreBelow 2 more }
    ensures { counts.new ≡ sum counts.old more }
{
    counts.turns += more.turns;
    counts.retired += more.retired;
    counts.granted += more.granted;
    counts.busy += more.busy;
}

/// Makes turns in order, puts their film at the end of a text, and gives what they came to.
pub fn film_turns(
    text: &mut Vec<u8>,
    reel: &mut Reel,
    machine: &mut AnyMachine,
    levels: &[u32],
    turns: &[Turn],
) -> Result<RunCounts, NoMemory>
    requires shape { IsShaped (machine_state machine.old).machine }
    requires filmed { IsFilmed levels.now (machine_state machine.old).machine }
    requires named { NameParts turns.now (machine_state machine.old).machine }
    requires few { CanRun turns.now (machine_state machine.old) }
    requires before { reel.old.before ≡ still_of (machine_state machine.old).machine }
    ensures text { OnOk result (text.new.items ≡ text.old.items ++ turns_film 0 turns.now (machine_state machine.old).machine) }
    ensures machine { OnOk result ((machine_state machine.new).machine ≡ (run_of turns.now (machine_state machine.old).machine).machine) }
    ensures counts { IfOk result (λ counts. counts ≡ counts_in turns.now (machine_state machine.old)) }
{
    let mut counts = no_counts();
    let mut number: u32 = 0;
    for turn in turns {
        let more = film_turn(text, reel, machine, levels, number, *turn)?;
        add_counts(&mut counts, more);
        number += 1;
    }
    Ok(counts)
}
