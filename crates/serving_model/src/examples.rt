//! Worked examples of served runs, as theorems: each clause is one, and there is nothing to run.

ghost use Rattle.serving_model.specs.Examples.{OneLevel, TwoLevels, ThreeLevels, Reservations, Refusals, KeysDiffer};

/// Reads and stores of two leaves on one bus.
pub fn one_level()
    ensures { OneLevel }
{}

/// Reads on and across two buses, and an erase of copies on both.
pub fn two_levels()
    ensures { TwoLevels }
{}

/// A read that turns half way up, one that turns at the top, and an erase of copies on all sides.
pub fn three_levels()
    ensures { ThreeLevels }
{}

/// An SC that stores, and one that fails.
pub fn reservations()
    ensures { Reservations }
{}

/// What isn't served.
pub fn refusals()
    ensures { Refusals }
{}

/// In the order of keys the operations of a served run may be another list.
pub fn keys_differ()
    ensures { KeysDiffer }
{}
