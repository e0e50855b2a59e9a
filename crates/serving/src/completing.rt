//! One instruction is completed.

ghost use Rattle.std.specs.Prelude.{◌≡◌, ◌+◌, ◌<◌, ◌≤◌, ◌++◌, IfErr, OnOk, true, length};
ghost use Rattle.serving.specs.DdmTypes.declared.turns.Turn.{Turn};
ghost use Rattle.serving.specs.TreeModel.Turns.Machine.{names_part, run_of};
ghost use Rattle.serving.specs.ServingModel.Serving.{turns_to_complete};
ghost use Rattle.serving.specs.Shown.{IsShown, issued_first};
ghost use Rattle.serving.specs.declared.refusal.Stop.TheVariants.{TooMany};

use crate::adding::add;
use crate::refusal::Stop;
use crate::server::Server;
use crate::walking::walk;
use ddm_types::{HartNo, ItemId, LeafNo, Turn, TurnAnswer, TxKind};
use std::alloc::Global;

/// The request that a turn issued.
#[derive(Clone, Copy)]
struct Issued {
    kind: TxKind,
    item: ItemId,
}

/// The leaf of a hart.
fn leaf_of(hart: HartNo) -> LeafNo
    ensures { result ≡ hart }
{
    LeafNo(hart.0)
}

/// The request that the first of some turns issued, if it did.
fn issued_first(answers: &[TurnAnswer]) -> Option<Issued>
    ensures { result ≡ issued_first answers.now }
{
    match answers.first() {
        Some(TurnAnswer::Issued(kind, item)) => Some(Issued {
            kind: *kind,
            item: *item,
        }),
        _ => None,
    }
}

/// Makes the turns by which a hart of a machine at rest completes its next instruction, and gives their answers.
pub(crate) fn complete<S: Server>(
    alloc: Global,
    server: &mut S,
    hart: HartNo,
    turns: &mut Vec<Turn>,
    answers: &mut Vec<TurnAnswer>,
) -> Result<(), Stop>
    requires shown { IsShown (S.value server.old) }
    requires hart { names_part (Turn.Hart hart 0) (S.value server.old) ≡ true }
    requires few { length turns.old.items ≤ 1048576 }
    requires made { S.made server.old ≡ length turns.old.items }
    ensures after { OnOk result
        (S.value server.new ≡ (run_of (turns_to_complete hart (S.value server.old)) (S.value server.old)).machine) }
    ensures turns { OnOk result (turns.new.items ≡ turns.old.items ++ turns_to_complete hart (S.value server.old)) }
    ensures answers { OnOk result
        (answers.new.items ≡ (run_of (turns_to_complete hart (S.value server.old)) (S.value server.old)).answers) }
    ensures few { OnOk result (length turns.new.items ≤ 1048576) }
    ensures made { OnOk result (S.made server.new ≡ length turns.new.items) }
    ensures many { IfErr result
        (λ stop. stop ≡ TooMany
        → 1048576 < length turns.old.items + length (turns_to_complete hart (S.value server.old))) }
{
    answers.clear();
    let own = [Turn::Hart { hart, victim: 0 }];
    add(server, &own, turns, answers)?;
    let Some(issued) = issued_first(answers) else {
        return Ok(());
    };
    walk(
        alloc,
        server,
        leaf_of(hart),
        issued.kind,
        issued.item,
        turns,
        answers,
    )?;
    add(server, &own, turns, answers)
}
