//! What holds of the measures of every recorded run, as theorems: each clause is one, and there is nothing to run.

ghost use Rattle.measure_model.specs.Laws.{ChangesNear, CountsAnswers, ReachesMost};

/// The counts are those of the answers of the turns that were made, and every recorded turn is counted by what it answered.
pub fn counts_are_of_answers()
    ensures { CountsAnswers }
{}

/// No list is ever longer than its greatest length, and each was as long as that.
pub fn greatest_lengths_are_reached()
    ensures { ReachesMost }
{}

/// A turn changes the lengths of no lists but those of the leaf or bus that it names and of that bus's children.
pub fn turns_change_lists_near()
    ensures { ChangesNear }
{}
