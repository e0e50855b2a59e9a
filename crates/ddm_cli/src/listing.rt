//! The command `schedule`: the turns of a seed as text.

ghost use Rattle.std.specs.Prelude.{◌≡◌, ◌<◌, ◌≤◌, ◌+◌, ◌++◌, [], length, IfOk};
ghost use Rattle.ddm_cli.specs.TextModel.Schedule.{schedule_text, turn_line, turn_lines};
ghost use Rattle.ddm_cli.specs.TextModel.Seeded.{seeded_turns};
ghost use Rattle.ddm_cli.specs.ScheduleLog.Shapes.{shape_view};

use crate::of_ddm_types::{NoMemory, Turn};
use crate::of_report::{LINE_BYTES, Line, Parts, push_turn};
use crate::of_schedule_log::SeededTurns;
use crate::of_tree_config::Shape;
use std::alloc::Global;
use std::marker::Model;

/// A line of a schedule has at most so many bytes.
const TURN_BYTES: usize = 67;

/// The text of the schedule of a seed, given part by part. A contract sees the text that is left.
#[derive(Drop)]
pub struct SchedulePieces {
    turns: SeededTurns,
    left: u32,
    is_ended: bool,
}

impl Model for SchedulePieces {
    ghost use Rattle.std.specs.Prelude.{◌≡◌, ℕ, List, length};
    ghost use Rattle.ddm_cli.specs.Listing.{lines_left};

    ghost Value = { List ℕ };

    ghost view = { λ p. lines_left p.turns.left p.is_ended };

    ghost invariant = { λ p. length p.turns.left ≡ p.left };
}

// Puts the line of a turn at the end.
#[tactic(auto, unfolding(crate::specs::Opened::turn_line))]
fn put_turn(line: &mut Line, turn: Turn)
    requires room { length line.old + TURN_BYTES ≤ LINE_BYTES }
    ensures text { line.new ≡ line.old ++ turn_line turn }
{
    let Ok(()) = push_turn(line, turn) else {
        unreachable!();
    };
    line.push(b"\n");
}

// Puts the lines of the next turns, of one or more, until there may be no room for a further one, and says how many turns are left.
fn put_lines(line: &mut Line, turns: &mut SeededTurns, left: u32) -> u32
    requires empty { line.old ≡ [] }
    requires some { 0 < left }
    requires counted { length turns.old.left ≡ left }
    ensures lines { turn_lines turns.old.left ≡ line.new ++ turn_lines turns.new.left }
    ensures counted { length turns.new.left ≡ result }
    ensures some { 0 < length line.new }
{
    let mut rest = left;
    'lines: while rest > 0 && line.len() <= LINE_BYTES - TURN_BYTES {
        put_turn(line, turns.next_turn());
        rest -= 1;
    }
    rest
}

impl SchedulePieces {
    /// The text of the schedule of so many turns, of which nothing is given yet.
    pub fn new(
        alloc: Global,
        shape: &Shape,
        seed: u64,
        turns: u32,
    ) -> Result<SchedulePieces, NoMemory>
        ensures { IfOk result (λ text. text ≡ schedule_text (seeded_turns (shape_view shape.now) seed turns)) }
    {
        let mut seeded = SeededTurns::new(alloc, shape)?;
        seeded.begin(seed, turns);
        Ok(SchedulePieces {
            turns: seeded,
            left: turns,
            is_ended: false,
        })
    }
}

impl Parts for SchedulePieces {
    ghost left = { λ text. text };

    fn put_next(&mut self, line: &mut Line) {
        if self.is_ended {
            return;
        }
        if self.left == 0 {
            line.push(b"end\n");
            self.is_ended = true;
        } else {
            self.left = put_lines(line, &mut self.turns, self.left);
        }
    }
}
