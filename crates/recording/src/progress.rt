//! How far a recorded run is.

ghost use Rattle.std.specs.Prelude.{◌≡◌, ◌+◌, ◌<◌, ◌≤◌, ◌++◌, ◌∷◌, [], length, vec_capacity, if◌then◌else◌};
ghost use Rattle.recording.specs.Runs.{end_now, noted};

use ddm_types::Turn;
use recording_model::RunEnd;

/// After so many drawn turns in a row that did nothing, a run is stuck.
const IDLE_LIMIT: u32 = 16_777_216;

/// How many turns may still be recorded, how many drawn ones in a row did nothing, and how many may still be drawn.
#[derive(Clone, Copy)]
pub struct Progress {
    pub left: u32,
    pub idle: u32,
    pub draws: u32,
}

impl Progress {
    /// Why the run ends before the next turn is drawn, if it does.
    #[inline(always)]
    pub fn end(&self, all_halted: bool) -> Option<RunEnd>
        ensures { result ≡ end_now all_halted self.now }
    {
        if all_halted {
            Some(RunEnd::Halted)
        } else if self.left == 0 {
            Some(RunEnd::Turns)
        } else if self.idle == IDLE_LIMIT {
            Some(RunEnd::Stuck)
        } else if self.draws == 0 {
            Some(RunEnd::Drawn)
        } else {
            None
        }
    }

    /// One more turn was drawn, which did something or didn't.
    #[inline(always)]
    pub fn note(&mut self, did: bool)
        requires left { 0 < self.old.left }
        requires idle { self.old.idle < 16777216 }
        requires draws { 0 < self.old.draws }
        ensures { self.new ≡ noted did self.old }
    {
        self.draws -= 1;
        if did {
            self.left -= 1;
            self.idle = 0;
        } else {
            self.idle += 1;
        }
    }
}

// Puts a turn behind the others, where there is memory for it.
fn add_turn(turns: &mut Vec<Turn>, turn: Turn)
    requires { length turns.old.items < vec_capacity turns.old }
    ensures items { turns.new.items ≡ turns.old.items ++ turn ∷ [] }
    ensures capacity { vec_capacity turns.old ≤ vec_capacity turns.new }
{
    if turns.extend_from_slice(&[turn]).is_err() {
        unreachable!();
    }
}

/// Does so where the turn did something.
#[inline(always)]
pub(crate) fn keep_turn(turns: &mut Vec<Turn>, turn: Turn, did: bool)
    requires { length turns.old.items < vec_capacity turns.old }
    ensures items { turns.new.items ≡ (if did then turns.old.items ++ turn ∷ [] else turns.old.items) }
    ensures capacity { vec_capacity turns.old ≤ vec_capacity turns.new }
{
    if did {
        add_turn(turns, turn);
    }
}
