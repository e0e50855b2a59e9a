//! One drawn turn on a machine, and what it comes to.

ghost use Rattle.std.specs.Prelude.{◌≡◌, ◌≤◌, ◌<◌, ◌+◌, IfSome, None, true, false, not, ◌||◌, if◌then◌else◌};
ghost use Rattle.tree_model.specs.Turns.Machine.{names_part, turn_of};
ghost use Rattle.any_runs.specs.DdmTree.Machine.{state_after};
ghost use Rattle.any_runs.specs.DdmTree.Quiet.{is_hart_turn};
ghost use Rattle.recording_model.specs.Doing.{does_by, had_halted};
ghost use Rattle.recording_model.specs.Recording.{after_draw};
ghost use Rattle.recording.specs.Runs.{AreHalted, came_by, came_to, does_halt, is_done};

use crate::harts::{flag_of, put_flags};
use any_runs::of_ddm_tree::{Machine, Subtree};
use ddm_types::{Turn, TurnAnswer};

/// What a drawn turn comes to.
#[derive(Clone, Copy, Debug, PartialEq, Eq)]
pub enum Came {
    /// It wasn't let by, or was made and did nothing.
    ToNothing,
    /// It was made and answered busy.
    ToBusy,
    /// It was made and did something.
    ToDoing,
}

/// Whether the turn did something.
#[inline(always)]
pub fn is_done(came: Came) -> bool
    ensures { result ≡ is_done came }
{
    matches!(came, Came::ToDoing)
}

// What a turn that answers so comes to, where its hart had halted before or not.
fn came_by(answer: &TurnAnswer, halted: bool) -> Came
    ensures { result ≡ came_by answer.now halted }
{
    match answer {
        TurnAnswer::Retired(_) | TurnAnswer::Issued(..) | TurnAnswer::Granted(_) => Came::ToDoing,
        TurnAnswer::Halted(_) if !halted => Came::ToDoing,
        TurnAnswer::Busy(_) => Came::ToBusy,
        TurnAnswer::Halted(_) | TurnAnswer::Waiting(_) | TurnAnswer::Empty => Came::ToNothing,
    }
}

// Whether a turn that answers so halts its hart, where it hadn't halted before.
fn does_halt(answer: &TurnAnswer, halted: bool) -> bool
    ensures { result ≡ does_halt answer.now halted }
{
    match answer {
        TurnAnswer::Halted(_) => !halted,
        _ => false,
    }
}

// Whether a turn may be passed where it is known to change nothing: of a hart that hasn't halted its answer has to be seen.
fn may_pass(turn: &Turn, halted: bool) -> bool
    ensures { result ≡ (halted || not (is_hart_turn turn.now)) }
{
    match turn {
        Turn::Hart { .. } => halted,
        _ => true,
    }
}

// Passes a turn that is known to do nothing, and says whether it is busy; any other it doesn't make.
#[inline(always)]
fn passes<const WORDS: usize, C: Subtree<WORDS>>(
    machine: &mut Machine<WORDS, C>,
    turn: &Turn,
    halted: bool,
) -> Option<Came>
    requires named { names_part turn.now machine.old.machine ≡ true }
    requires turns { machine.old.turns < 4294967295 }
    ensures came { IfSome result (λ came. came ≡ came_by (turn_of turn.now machine.old.machine).answer halted) }
    ensures rests { IfSome result (λ came. does_by (turn_of turn.now machine.old.machine).answer halted ≡ false) }
    ensures after { IfSome result (λ came. machine.new ≡ state_after turn.now machine.old) }
    ensures same { result ≡ None → machine.new ≡ machine.old }
{
    if !may_pass(turn, halted) {
        return None;
    }
    match machine.pass(turn) {
        None => None,
        Some(false) => Some(Came::ToNothing),
        Some(true) => Some(Came::ToBusy),
    }
}

// Makes a turn, and says what it comes to. Where it does something, `answer` becomes its answer. It takes no memory.
#[inline(always)]
fn make_turn<const WORDS: usize, C: Subtree<WORDS>>(
    machine: &mut Machine<WORDS, C>,
    turn: &Turn,
    flags: &mut [bool],
    all: &mut bool,
    answer: &mut TurnAnswer,
) -> Came
    requires named { names_part turn.now machine.old.machine ≡ true }
    requires spare { 0 < machine.old.spare }
    requires turns { machine.old.turns < 4294967295 }
    requires halted { AreHalted flags.old all.old machine.old.machine }
    ensures came { result ≡ came_by (turn_of turn.now machine.old.machine).answer (had_halted turn.now machine.old.machine) }
    ensures answer { is_done result ≡ true → answer.new ≡ (turn_of turn.now machine.old.machine).answer }
    ensures after { machine.new ≡ state_after turn.now machine.old }
    ensures halted { AreHalted flags.new all.new machine.new.machine }
{
    // The shape that every machine keeps, on which it rests whose flag is whose.
    machine.counts();
    let halted = flag_of(turn, flags);
    if let Some(came) = passes(machine, turn, halted) {
        return came;
    }
    machine.turn_into(turn, answer);
    if does_halt(answer, halted) {
        *all = put_flags(machine, flags);
        return Came::ToDoing;
    }
    came_by(answer, halted)
}

/// Makes a drawn turn, if it is let by, and says what it comes to. Where it does something, `answer` becomes its answer. It takes no
/// memory.
#[inline(always)]
pub fn make_draw<const WORDS: usize, C: Subtree<WORDS>>(
    machine: &mut Machine<WORDS, C>,
    turn: &Turn,
    let_by: bool,
    flags: &mut [bool],
    all: &mut bool,
    answer: &mut TurnAnswer,
) -> Came
    requires named { names_part turn.now machine.old.machine ≡ true }
    requires spare { 0 < machine.old.spare }
    requires turns { machine.old.turns < 4294967295 }
    requires halted { AreHalted flags.old all.old machine.old.machine }
    ensures came { result ≡ came_to (record { turn = turn.now; let_by = let_by }) machine.old.machine }
    ensures answer { is_done result ≡ true → answer.new ≡ (turn_of turn.now machine.old.machine).answer }
    ensures after { machine.new.machine ≡ after_draw (record { turn = turn.now; let_by = let_by }) machine.old.machine }
    ensures spare { machine.old.spare ≤ machine.new.spare + (if is_done result then 1 else 0) }
    ensures turns { machine.new.turns ≤ machine.old.turns + 1 }
    ensures halted { AreHalted flags.new all.new machine.new.machine }
{
    if !let_by {
        return Came::ToNothing;
    }
    make_turn(machine, turn, flags, all, answer)
}
