//! The outcomes of seeds are counted.

ghost use Rattle.std.specs.Prelude.{◌≡◌, ◌<◌, ◌+◌, IfOk, OnErr, OnOk};
ghost use Rattle.std.specs.List.{position_or_len};
ghost use Rattle.outcome_model.specs.Table.{counted, is_outcome};
ghost use Rattle.outcomes.specs.Runs.{AreFew};

use crate::line::OutcomeLine;
use crate::of_ddm_types::NoMemory;
use std::alloc::Global;

impl OutcomeLine {
    // The line of an outcome that one seed gave.
    fn new(alloc: Global, seed: u64, text: &[u8]) -> Result<Self, NoMemory>
        ensures { IfOk result (λ l. l ≡ record { times = 1; seed = seed; outcome = text.now }) }
    {
        let text = Vec::from_slice(alloc, text)?;
        Ok(OutcomeLine {
            times: 1,
            seed,
            text,
        })
    }

    // Whether it is the line of this outcome.
    fn is(&self, text: &[u8]) -> bool
        ensures { result ≡ is_outcome text.now self.now }
    {
        self.text.as_slice() == text
    }

    // One seed more gave it.
    fn count(&mut self)
        requires { self.old.times < 18446744073709551615 }
        ensures { self.new ≡ record self.old { times = self.old.times + 1 } }
    {
        self.times += 1;
    }
}

// The place of the line of this outcome, or how many lines there are where it has none.
fn place_of(lines: &[OutcomeLine], text: &[u8]) -> usize
    ensures { result ≡ position_or_len (is_outcome text.now) lines.now }
{
    for place in 0..lines.len() {
        if lines[place].is(text) {
            return place;
        }
    }
    lines.len()
}

/// One seed more gave this outcome. After `NoMemory` the lines are as they were.
pub fn count_outcome(
    alloc: Global,
    lines: &mut Vec<OutcomeLine>,
    seed: u64,
    text: &[u8],
) -> Result<(), NoMemory>
    requires { AreFew lines.old.items }
    ensures counted { OnOk result (lines.new.items ≡ counted seed text.now lines.old.items) }
    ensures same { OnErr result (lines.new.items ≡ lines.old.items) }
{
    let place = place_of(lines, text);
    if place < lines.len() {
        lines[place].count();
    } else {
        lines.push(OutcomeLine::new(alloc, seed, text)?)?;
    }
    Ok(())
}
