//! The machine does what the table says, as theorems: each clause is one, and there is nothing to run.

ghost use Rattle.std.specs.Prelude.{◌≡◌, List, Some};
ghost use Rattle.protocol_table.specs.DdmTypes.declared.keys.Stamp.{Stamp};
ghost use Rattle.protocol_table.specs.DdmTypes.declared.sizes.LeafState.{LeafState};
ghost use Rattle.tree_model.specs.declared.BusTurn.{BusTurn};
ghost use Rattle.tree_model.specs.State.States.{entry_hold, state_lost, asked_when_lost, state_with_data};
ghost use Rattle.tree_model.specs.State.States.{asked_with_data, state_with_exclusive, state_with_inject};
ghost use Rattle.tree_model.specs.State.States.{state_answered, is_waiting, may_leave};
ghost use Rattle.tree_model.specs.State.Values.{DirValue, Node};
ghost use Rattle.protocol_table.specs.Table.{table_says};
ghost use Rattle.protocol_table.specs.Laws.{ComesTo, FirstRowDecides, NoRowIsEmpty, NothingIsEmpty};
ghost use Rattle.protocol_table.specs.Grid.{row_of};
ghost use Rattle.protocol_table.specs.Told.{DirectoriesGoByRows};
ghost use Rattle.protocol_table.specs.Examples.{OneRead, OneWrite, JoinedRead, PendingErase};

/// A turn of a bus is what the first row of the table that applies says, in every state and for every turn: what it
/// answers, what it leaves of the parent, and what of the children.
pub fn turns_are_the_table()
    ensures { (above : Stamp) (p : DirValue) (ns : List Node) (t : BusTurn)
        → ComesTo above p ns t (table_says above p ns t) }
{}

/// Row by row: where a row speaks and none before it does, the turn comes to what that row says. Where none does, or
/// nothing is asked, the turn is empty and changes nothing.
pub fn first_row_decides()
    ensures row { FirstRowDecides }
    ensures none { NoRowIsEmpty }
    ensures nothing { NothingIsEmpty }
{}

/// What becomes of a leaf's entry is what the row of its state says.
pub fn states_are_the_grid()
    ensures holds { (t : LeafState) → entry_hold (Some t) ≡ (row_of t).holds }
    ensures lost { (t : LeafState) → state_lost t ≡ (row_of t).lost.state }
    ensures asks_when_lost { (t : LeafState) → asked_when_lost t ≡ (row_of t).lost.asks }
    ensures data { (t : LeafState) → state_with_data t ≡ (row_of t).data_comes.state }
    ensures asks_with_data { (t : LeafState) → asked_with_data t ≡ (row_of t).data_comes.asks }
    ensures exclusive { (t : LeafState) → state_with_exclusive t ≡ (row_of t).exclusive_comes.state }
    ensures inject { (t : LeafState) → state_with_inject t ≡ (row_of t).inject_comes.state }
    ensures answers { (t : LeafState) → state_answered t ≡ (row_of t).answers.state }
    ensures waits { (t : LeafState) → is_waiting t ≡ (row_of t).waits }
    ensures leaves { (t : LeafState) → may_leave t ≡ (row_of t).may_leave }
{}

/// What becomes of a directory that is told something is what its row says.
pub fn directories_go_by_rows()
    ensures { DirectoriesGoByRows }
{}

/// Turns of a bus of two leaves, as the table answers them.
pub fn worked_turns()
    ensures one_read { OneRead }
    ensures one_write { OneWrite }
    ensures joined_read { JoinedRead }
    ensures pending_erase { PendingErase }
{}
