//! What holds of LR and SC, as theorems: each clause is one, and there is nothing to run.

ghost use Rattle.lr_sc_laws.specs.Between.{LegalScsHaveTheirLr};
ghost use Rattle.lr_sc_laws.specs.Failing.{LeafFailsUnreserved, TurnFailsUnreserved};

/// Before each SC that stores, in a legal list from a start, stands its hart's LR of the same item, and between them neither another
/// LR or SC of the hart nor a store of another hart to the item.
pub fn nothing_between()
    ensures { LegalScsHaveTheirLr }
{}

/// A turn completes an SC as failed exactly where it comes to one whose item isn't the leaf's reservation.
pub fn unreserved_sc_fails()
    ensures leaf { LeafFailsUnreserved }
    ensures turn { TurnFailsUnreserved }
{}
