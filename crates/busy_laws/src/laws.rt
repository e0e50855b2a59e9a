//! Why turns are busy, as theorems: each clause is one, and there is nothing to run.

ghost use Rattle.busy_laws.specs.Reasons.{BusyForItsReason, EveryRunBusyForItsReasons};

/// A turn answers busy exactly where it has a reason, and names the first: of its own leaf or bus, and of the item and the lists
/// that it judges there. A turn that isn't busy has none.
pub fn busy_for_its_reason()
    ensures turn { BusyForItsReason }
    ensures runs { EveryRunBusyForItsReasons }
{}
