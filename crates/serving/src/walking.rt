//! The walks for what a leaf asks for are made.

ghost use Rattle.std.specs.Prelude.{◌≡◌, ◌+◌, ◌<◌, ◌≤◌, ◌++◌, IfErr, IfOk, OnOk, true, length};
ghost use Rattle.serving.specs.DdmTypes.ItemTable.{item_count};
ghost use Rattle.serving.specs.DdmTypes.declared.turns.Turn.{Turn};
ghost use Rattle.serving.specs.TreeModel.State.Shape.{IsShaped};
ghost use Rattle.serving.specs.TreeModel.State.Values.{root_of};
ghost use Rattle.serving.specs.TreeModel.Turns.Machine.{names_part, run_of};
ghost use Rattle.serving.specs.ServingModel.Serving.{walk_by_kind, walks_of};
ghost use Rattle.serving.specs.ServingModel.Told.{AreTold, entry_state_at, walk_by_state};
ghost use Rattle.serving.specs.Shown.{waits_to_write};
ghost use Rattle.serving.specs.declared.refusal.Stop.TheVariants.{TooMany};

use crate::adding::add;
use crate::refusal::Stop;
use crate::server::Server;
use ddm_types::{BusNo, ItemId, LeafNo, LeafState, NoMemory, Turn, TurnAnswer, TxKind};
use serving_walk::{erase, read};
use std::alloc::Global;

/// The walk of the request that a leaf issued.
fn first_walk<S: Server>(
    alloc: Global,
    server: &S,
    leaf: LeafNo,
    kind: TxKind,
    item: ItemId,
) -> Result<Vec<Turn>, NoMemory>
    requires shaped { IsShaped (S.value server.now) }
    requires top { (S.value server.now).top.bus ≡ 0 }
    requires item { item < item_count (S.value server.now).items }
    ensures { IfOk result (λ walk. walk.items ≡ walk_by_kind kind leaf item (root_of (S.value server.now))) }
{
    let mut walk = Vec::new(alloc);
    match kind {
        TxKind::ReadTx => read(server, leaf, item, Some(BusNo(0)), &mut walk)?,
        TxKind::EraseTx => erase(server, leaf, item, Some(BusNo(0)), &mut walk)?,
        _ => {}
    }
    Ok(walk)
}

/// Whether an entry in this state waits to be written.
fn waits_to_write(state: Option<LeafState>) -> bool
    ensures { result ≡ waits_to_write state }
{
    matches!(state, Some(LeafState::Waiting))
}

/// The walk that follows it: that of an erase where the leaf's entry waits to be written.
fn later_walk<S: Server>(
    alloc: Global,
    server: &S,
    leaf: LeafNo,
    item: ItemId,
) -> Result<Vec<Turn>, NoMemory>
    requires shaped { IsShaped (S.value server.now) }
    requires top { (S.value server.now).top.bus ≡ 0 }
    requires leaf { names_part (Turn.Hart leaf 0) (S.value server.now) ≡ true }
    requires item { item < item_count (S.value server.now).items }
    ensures { IfOk result
        (λ walk. walk.items
        ≡ walk_by_state (entry_state_at leaf item (S.value server.now)) leaf item (root_of (S.value server.now))) }
{
    let mut walk = Vec::new(alloc);
    if !waits_to_write(server.state(item, leaf)) {
        return Ok(walk);
    }
    erase(server, leaf, item, Some(BusNo(0)), &mut walk)?;
    Ok(walk)
}

/// Makes the walks for what the leaf asks for.
pub(crate) fn walk<S: Server>(
    alloc: Global,
    server: &mut S,
    leaf: LeafNo,
    kind: TxKind,
    item: ItemId,
    turns: &mut Vec<Turn>,
    answers: &mut Vec<TurnAnswer>,
) -> Result<(), Stop>
    requires shaped { IsShaped (S.value server.old) }
    requires top { (S.value server.old).top.bus ≡ 0 }
    requires leaf { names_part (Turn.Hart leaf 0) (S.value server.old) ≡ true }
    requires told { AreTold (S.value server.old) kind leaf item }
    requires few { length turns.old.items ≤ 1048576 }
    requires made { S.made server.old ≡ length turns.old.items }
    ensures after { OnOk result
        (S.value server.new ≡ (run_of (walks_of leaf (S.value server.old)) (S.value server.old)).machine) }
    ensures turns { OnOk result (turns.new.items ≡ turns.old.items ++ walks_of leaf (S.value server.old)) }
    ensures answers { OnOk result
        (answers.new.items
        ≡ answers.old.items ++ (run_of (walks_of leaf (S.value server.old)) (S.value server.old)).answers) }
    ensures few { OnOk result (length turns.new.items ≤ 1048576) }
    ensures made { OnOk result (S.made server.new ≡ length turns.new.items) }
    ensures many { IfErr result
        (λ stop. stop ≡ TooMany → 1048576 < length turns.old.items + length (walks_of leaf (S.value server.old))) }
{
    let Ok(first) = first_walk(alloc, server, leaf, kind, item) else {
        return Err(Stop::NoMemory);
    };
    add(server, &first, turns, answers)?;
    let Ok(later) = later_walk(alloc, server, leaf, item) else {
        return Err(Stop::NoMemory);
    };
    add(server, &later, turns, answers)
}
