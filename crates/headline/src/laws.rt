//! What follows from the core rules of order, as theorems: there is nothing to run.

ghost use Rattle.headline.specs.Follows.{WitnessFollows, WrittenFollows};
ghost use Rattle.headline.specs.Runs.{StartIsOrderly, EveryRunIsWitnessed, EveryRunIsInOrder};
ghost use Rattle.headline.specs.Causes.{BusyHasItsCause};
ghost use Rattle.headline.specs.Conditional.{ConditionalStoresJudged};

/// What a reader asks of a machine follows from the core rules: the operations in key order are one run of the flat machine, each
/// hart has that run's registers, pc, count and halt, and each found copy that run's words. So do the written rules.
pub fn order_follows()
    ensures witnessed { WitnessFollows }
    ensures written { WrittenFollows }
{}

/// The machine of a tree and an image starts in order, from the flat machine of the same tree and image.
pub fn start_is_in_order()
    ensures { StartIsOrderly }
{}

/// The order theorem: for every tree and image from which a machine is made and every list of turns, after each turn the machine's
/// operations in key order are one run of the flat machine, and harts, words, answers and causes are that run's.
/// And at the end of every run all rules of order hold, and those of every bus.
pub fn each_turn_is_witnessed()
    ensures witnessed { EveryRunIsWitnessed }
    ensures rules { EveryRunIsInOrder }
{}

/// A turn that answers busy names a cause that is a fact of the machine before it.
pub fn busy_has_its_cause()
    ensures { BusyHasItsCause }
{}

/// An SC that completes as stored had its item reserved at its leaf, and so had the flat machine's hart at its place in the order.
/// One that completes as failed hadn't.
pub fn conditional_stores()
    ensures { ConditionalStoresJudged }
{}
