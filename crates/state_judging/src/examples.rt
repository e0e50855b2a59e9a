//! Machines of runs and machines that were changed by hand, judged by the definition: each clause is a theorem, and there is nothing
//! to run.

ghost use Rattle.state_judging.specs.Examples.{Judgements};

/// What keeps the rules and what doesn't, as it is judged.
pub fn judged_machines()
    ensures { Judgements }
{}
