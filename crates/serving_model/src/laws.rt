//! What holds of walks, as theorems: there is nothing to run.

ghost use Rattle.serving_model.specs.ServedLists.{StoringRunsAreLegal, ListsAreServed, StartsAreShown};
ghost use Rattle.serving_model.specs.ServedLists.{StartsHaveRoom, EveryOrderIsShown, ServedListsAreCompleted};
ghost use Rattle.serving_model.specs.Told.{WalksAreTold};
ghost use Rattle.serving_model.specs.Laws.{PartsGive, PartsLose, RunsAreTheMachines, ReadsAreServed, ErasesAreServed};
ghost use Rattle.serving_model.specs.Laws.{WalksBringTheItem, RequestsComplete, InstructionsAreServed, StepsAreShown};
ghost use Rattle.serving_model.specs.Laws.{WalksAreShort, GrantsKeepHarts};

/// A part of the tree that holds an item, and is at rest, gives it when it is told to answer: its turns are granted, and it is at rest
/// again when its reply is taken.
pub fn parts_give()
    ensures { PartsGive }
{}

/// A part of the tree at rest that is told to lose an item comes to rest again: its turns are granted.
pub fn parts_lose()
    ensures { PartsLose }
{}

/// The turns of a part of the tree are turns of the machine, where no two buses have one number.
pub fn parts_run_alone()
    ensures { RunsAreTheMachines }
{}

/// The walk of a read that a leaf asks for serves it, where all else is at rest.
pub fn reads_are_served()
    ensures { ReadsAreServed }
{}

/// The walk of an erase that a leaf asks for serves it, where all else is at rest.
pub fn erases_are_served()
    ensures { ErasesAreServed }
{}

/// Where a hart's turn in a machine at rest, with room, issues a request for an item, the walks bring the item to its leaf, and the
/// machine is at rest again.
pub fn walks_bring_the_item()
    ensures { WalksBringTheItem }
{}

/// These walks can be told by what the turn answered and by the state of the leaf's entry after the first of them; all their turns are
/// granted.
pub fn walks_are_told()
    ensures { WalksAreTold }
{}

/// A hart whose item the walks have brought completes its instruction at its next turn, as its step on a flat memory is.
pub fn requests_complete()
    ensures { RequestsComplete }
{}

/// In a machine at rest, with room, a hart's next instruction is served: the turns complete the operation of its step on a flat
/// memory.
pub fn instructions_are_served()
    ensures { InstructionsAreServed }
{}

/// And then the machine is at rest again: its copies have the words, and its leaves the harts and the reservations, of the flat machine
/// after the step.
pub fn steps_are_shown()
    ensures { StepsAreShown }
{}

/// The lists in which an SC that has its reservation stores are the legal ones in which none fails whose hart has its item reserved.
pub fn storing_runs_are_legal()
    ensures { StoringRunsAreLegal }
{}

/// So every list of operations that a flat memory completes, in which an SC that has its reservation stores, is served where the machine
/// shows that flat memory: the run completes these operations in this order and no other.
pub fn lists_are_served()
    ensures { ListsAreServed }
{}

/// The machine of every accepted tree with room shows its flat machine before its first turn.
pub fn starts_are_shown()
    ensures { StartsAreShown }
{}

/// A machine has room where the sizes of its tree have.
pub fn starts_have_room()
    ensures { StartsHaveRoom }
{}

/// The machine of every accepted tree with room shows every order of one flat memory: each list of operations that the memory
/// completes, in which an SC that has its reservation stores, is what the machine completes on the schedule that is served, in this
/// order and no other; unless the schedule has too many turns.
pub fn every_order_is_shown()
    ensures { EveryOrderIsShown }
{}

/// Every legal list that is served is completed: its run completes just these operations, in this order.
pub fn served_lists_are_completed()
    ensures { ServedListsAreCompleted }
{}

/// An instruction takes at most four turns of each bus, and two of its hart.
pub fn walks_are_short()
    ensures { WalksAreShort }
{}

/// Turns that are all granted change no hart.
pub fn grants_keep_harts()
    ensures { GrantsKeepHarts }
{}
