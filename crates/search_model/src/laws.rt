//! What the search of a machine finds, as theorems: each clause is one, and there is nothing to run.

ghost use Rattle.search_model.specs.Claims.{WholeSearchIsRight, QuietSearchIsRight};
ghost use Rattle.search_model.specs.TurnClaims.{EachTurnIsTried, NoOtherTurnIsLeft, StatesAreRuns, QuietTurnsGoFirst};

/// Each turn that does something, with whatever victim or choice, does what one of the turns does that are tried. So where none is
/// tried, no turn does anything. The states of a search are the machines after runs.
pub fn turns_are_tried()
    ensures tried { EachTurnIsTried }
    ensures none { NoOtherTurnIsLeft }
    ensures states { StatesAreRuns }
{}

/// A search that tries every turn that does something finds each outcome and each jam by a shortest way; where no state was without
/// a place it finds all, and otherwise all of so many turns.
pub fn whole_searches_are_right()
    ensures { WholeSearchIsRight }
{}

/// Where a hart has a quiet turn, it alone is enough: beside it another turn does the same, or leaves it quiet, and the two may be
/// swapped.
pub fn quiet_turns_go_first()
    ensures { QuietTurnsGoFirst }
{}

/// So the search that tries quiet turns first is right as well.
pub fn quiet_searches_are_right()
    ensures { QuietSearchIsRight }
{}
