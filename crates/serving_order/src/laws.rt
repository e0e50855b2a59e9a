//! What holds of the keys of served runs, as theorems: there is nothing to run.

ghost use Rattle.serving_order.specs.Rising.{RestingTurnsRise, ServedKeysRise};

/// An operation that completes in a machine at rest has a greater key than each earlier one on its item, where one of the two stores
/// to it.
pub fn resting_turns_rise()
    ensures { RestingTurnsRise }
{}

/// So in a served run any two operations on one item, of which one stores to it, have their keys in the order in which they completed.
/// Those of others may be in another order.
pub fn served_keys_rise()
    ensures { ServedKeysRise }
{}
