//! The rules of order after a turn.

ghost use Rattle.order_laws.specs.EveryTurn.{EveryTurnKeepsTime, TurnKeepsCore, RunStaysOrderly};
ghost use Rattle.order_laws.specs.Hart.{HartTurnKeepsCore};
ghost use Rattle.order_laws.specs.Timed.{TurnKeepsCommands};

/// Every turn keeps the rules of time: keys differ, a leaf's next key is greater than those of its hart, and stamps rise in
/// each down list between what the bus below took over and the present stamp above. And it keeps the rule of commands.
pub fn turn_keeps_time()
    ensures time { EveryTurnKeepsTime }
    ensures commands { TurnKeepsCommands }
{}

/// A hart's turn keeps the core rules of order, whatever it answers. So one more operation leaves the list in key order legal,
/// and each hart, each copy's words and each reservation as the flat machine has them after it.
pub fn hart_turn_keeps_order()
    ensures { HartTurnKeepsCore }
{}

/// Every turn keeps the core rules of order, whatever it answers. So a run keeps all that makes a machine be in order.
pub fn turn_keeps_order()
    ensures turn { TurnKeepsCore }
    ensures run { RunStaysOrderly }
{}
