//! A list of operations is served.

ghost use Rattle.std.specs.Prelude.{◌≡◌, ◌≤◌, All, IfErr, IfOk, Ok, true, length};
ghost use Rattle.serving.specs.DdmTypes.declared.turns.Turn.{Turn};
ghost use Rattle.serving.specs.TreeModel.Turns.Machine.{names_part};
ghost use Rattle.serving.specs.ServingModel.Serving.{completes_op, same_operation, serve_from};
ghost use Rattle.serving.specs.Shown.{IsShown, Refuses};

use crate::completing::complete;
use crate::effects::same_effect;
use crate::refusal::{ServeRefusal, Stop};
use crate::server::Server;
use ddm_types::{Op, Turn, TurnAnswer};
use std::alloc::Global;

/// Whether two operations are of the same hart and place in its code, with the same effect. Keys aren't looked at.
fn same_operation(a: &Op, b: &Op) -> bool
    ensures { result ≡ same_operation a.now b.now }
{
    a.hart == b.hart && a.pc == b.pc && same_effect(&a.effect, &b.effect)
}

/// Whether the first operation that completed is this one.
fn completes(op: &Op, answers: &[TurnAnswer]) -> bool
    ensures { result ≡ completes_op op.now answers.now }
{
    for answer in answers {
        if let TurnAnswer::Retired(done) = answer {
            return same_operation(op, done);
        }
    }
    false
}

/// The schedule on which the machine completes the operations in their order and no other, which it has made; or the first
/// line that isn't what its hart does next, or with whose turns there are too many.
pub fn serve<S: Server>(
    alloc: Global,
    server: &mut S,
    ops: &[Op],
) -> Result<Vec<Turn>, ServeRefusal>
    requires shown { IsShown (S.value server.old) }
    requires harts { All (λ op. names_part (Turn.Hart op.hart 0) (S.value server.old) ≡ true) ops.now }
    requires lines { length ops.now ≤ 1048576 }
    requires made { S.made server.old ≡ 0 }
    ensures served { IfOk result (λ turns. serve_from 1 0 ops.now (S.value server.old) ≡ Ok turns.items) }
    ensures refused { IfErr result (λ r. Refuses r (serve_from 1 0 ops.now (S.value server.old))) }
{
    let mut turns = Vec::new(alloc);
    let mut answers = Vec::new(alloc);
    let mut line = 1;
    'lines: for op in ops {
        match complete(alloc, server, op.hart, &mut turns, &mut answers) {
            Ok(()) => {}
            Err(Stop::TooMany) => return Err(ServeRefusal::TooManyTurns(line)),
            Err(Stop::NoMemory) => return Err(ServeRefusal::NoMemory),
        }
        if !completes(op, &answers) {
            return Err(ServeRefusal::NotServed(line));
        }
        line += 1;
    }
    Ok(turns)
}
