//! The turn that goes on, computed on examples; and a run on small lists that jams.

ghost use Rattle.jam_laws.specs.Examples.{FourLeaves, OneReadGoesOn, SmallListsJam, TriedInOrder};

/// A read under way goes on with its request and then with the reply; where no leaf waits, no turn is named.
pub fn one_read_goes_on()
    ensures { OneReadGoesOn }
{}

/// Three items want lists of 24 places.
pub fn four_leaves()
    ensures { FourLeaves }
{}

/// Buses are tried by number, on a bus Down, then Reply, then Request, and children by number.
pub fn tried_in_order()
    ensures { TriedInOrder }
{}

/// On lists of one place six harts that read from the other side of the tree come to a state in which all of them wait and no
/// bus goes on.
pub fn small_lists_jam()
    ensures { SmallListsJam }
{}
