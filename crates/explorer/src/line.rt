//! The lines of a search's table: outcomes, and the first schedules that led to them.

ghost use Rattle.std.specs.Prelude.{◌≡◌, OnOk};
ghost use Rattle.std.specs.List.{list_any};
ghost use Rattle.explorer.specs.Searching.{has_outcome, noted};

use ddm_types::{NoMemory, Turn};
use std::marker::Model;

/// An outcome, or what a jam leaves, and the turns that led to it.
#[derive(Drop)]
pub struct Line {
    pub outcome: Vec<u8>,
    pub schedule: Vec<Turn>,
}

impl Model for Line {
    ghost use Rattle.search_model.specs.Explored.{MachineFound};
    ghost use Rattle.explorer.specs.Searching.{found_code};

    ghost Value = { MachineFound };

    ghost coded = { found_code };

    ghost view = { λ l. record { outcome = l.outcome.items; schedule = l.schedule.items } };
}

impl Line {
    fn has(&self, outcome: &[u8]) -> bool
        ensures { result ≡ has_outcome outcome.now self.now }
    {
        self.outcome.as_slice() == outcome
    }
}

fn some_has(lines: &[Line], outcome: &[u8]) -> bool
    ensures { result ≡ list_any (has_outcome outcome.now) lines.now }
{
    for line in lines {
        if line.has(outcome) {
            return true;
        }
    }
    false
}

/// Puts a line behind the others, where its outcome is new.
pub(crate) fn note(lines: &mut Vec<Line>, line: Line) -> Result<(), NoMemory>
    ensures { OnOk result (lines.new.items ≡ noted line lines.old.items) }
{
    if some_has(lines, &line.outcome) {
        return Ok(());
    }
    lines.push(line)?;
    Ok(())
}
