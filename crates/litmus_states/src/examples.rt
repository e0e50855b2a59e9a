//! Worked examples of the states of runs, as theorems: each clause is one, and there is nothing to run.

ghost use Rattle.litmus_states.specs.Examples.{SmallStates};

/// What a hart that stops or makes a call comes to, and what a table of four ends is in a log.
pub fn small_states()
    ensures { SmallStates }
{}
