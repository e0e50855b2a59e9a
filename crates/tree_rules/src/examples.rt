//! The rules computed on runs and on states made by hand.

ghost use Rattle.tree_rules.specs.Examples.{KeepsRules, two_writers_flat, two_writers_turns, two_writers_start};
ghost use Rattle.tree_rules.specs.Examples.{stale_load_flat, stale_load_all, stale_load_start, last_copy_flat};
ghost use Rattle.tree_rules.specs.Examples.{last_copy_turns, last_copy_start};
ghost use Rattle.tree_rules.specs.CopiesOfAWord.{Copies, Claims};
ghost use Rattle.tree_rules.specs.Refused.{AskedTwice, ExclusiveChildren, FacesRefused, OwnRefused, ShapesRefused, OrderRefused};
ghost use Rattle.tree_rules.specs.Lag.{LateExclusive, EarlyWord};

/// The shape, the rules of a bus and the rules of order hold at the start and after every turn of three runs.
pub fn runs_keep_rules()
    ensures two_writers { KeepsRules two_writers_flat two_writers_turns two_writers_start 8 }
    ensures stale_load { KeepsRules stale_load_flat stale_load_all stale_load_start 10 }
    ensures last_copy { KeepsRules last_copy_flat last_copy_turns last_copy_start 7 }
{}

/// The copies of a word and the claims on it while a store goes on: a load elsewhere reads the old word.
pub fn copies_of_a_word()
    ensures copies { Copies }
    ensures claims { Claims }
{}

/// States that a rule of a bus, of the shape, or of order refuses: most of them that rule alone.
pub fn broken_states()
    ensures asked_twice { AskedTwice }
    ensures exclusive_children { ExclusiveChildren }
    ensures faces { FacesRefused }
    ensures own { OwnRefused }
    ensures shapes { ShapesRefused }
    ensures order { OrderRefused }
{}

/// Without the rules of claims and clocks the others aren't kept by a turn.
pub fn lagging_buses()
    ensures late_exclusive { LateExclusive }
    ensures early_word { EarlyWord }
{}
