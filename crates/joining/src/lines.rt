//! The lines of tables that are put together.

ghost use Rattle.std.specs.Prelude.{◌≡◌, ◌+◌, ◌<◌, ◌^◌, [], IfOk, OnOk, sum_by};
ghost use Rattle.joining.specs.Said.{AreAlike, times};
ghost use Rattle.join_model.specs.Joined.{with_line, with_more, with_table};

use crate::line::OutcomeLine;
use crate::of_ddm_types::NoMemory;
use indexmap::IndexSet;
use std::alloc::Global;

/// The lines of the tables so far, in the order in which their outcomes came, and the places of the outcomes.
#[derive(Drop)]
pub struct LineSet {
    pub(crate) lines: Vec<OutcomeLine>,
    pub(crate) places: IndexSet<Vec<u8>>,
}

impl OutcomeLine {
    // More runs gave this outcome.
    fn add(&mut self, more: &OutcomeLine)
        requires { self.old.times + more.now.times < 2 ^ 64 }
        ensures { self.new ≡ with_more more.now self.old }
    {
        self.times += more.times;
        self.seed = self.seed.min(more.seed);
    }

    fn copy(&self, alloc: Global) -> Result<OutcomeLine, NoMemory>
        ensures { IfOk result (λ l. l ≡ self.now) }
    {
        Ok(OutcomeLine {
            times: self.times,
            seed: self.seed,
            text: Vec::from_slice(alloc, &self.text)?,
        })
    }
}

impl LineSet {
    pub fn new(alloc: Global) -> Self
        ensures none { result.lines.items ≡ [] }
        ensures alike { AreAlike result }
    {
        LineSet {
            lines: Vec::new(alloc),
            places: IndexSet::new(alloc),
        }
    }

    /// Its lines, which aren't in order yet.
    pub fn into_lines(self) -> Vec<OutcomeLine>
        ensures { result.items ≡ self.lines.items }
    {
        self.lines
    }

    // One line more. After `NoMemory` nothing is known of the set.
    fn add(&mut self, alloc: Global, line: &OutcomeLine) -> Result<(), NoMemory>
        requires alike { AreAlike self.old }
        requires few { sum_by times self.old.lines.items + line.now.times < 2 ^ 64 }
        ensures lines { OnOk result (self.new.lines.items ≡ with_line line.now self.old.lines.items) }
        ensures alike { OnOk result (AreAlike self.new) }
    {
        match self.places.get_index_of(line.text.as_slice()) {
            Some(place) => self.lines[place].add(line),
            None => {
                self.places.insert(Vec::from_slice(alloc, &line.text)?)?;
                self.lines.push(line.copy(alloc)?)?;
            }
        }
        Ok(())
    }

    /// The lines of a table more, each in constant time. After `NoMemory` nothing is known of the set.
    pub fn add_all(&mut self, alloc: Global, lines: &[OutcomeLine]) -> Result<(), NoMemory>
        requires alike { AreAlike self.old }
        requires few { sum_by times self.old.lines.items + sum_by times lines.now < 2 ^ 64 }
        ensures lines { OnOk result (self.new.lines.items ≡ with_table lines.now self.old.lines.items) }
        ensures alike { OnOk result (AreAlike self.new) }
    {
        for line in lines {
            self.add(alloc, line)?;
        }
        Ok(())
    }
}
