//! The text of served operations.

ghost use Rattle.std.specs.Prelude.{◌≡◌, ◌≤◌, ◌⊎◌, List, All, Ok, IfErr, IfOk, Result, length, true};
ghost use Rattle.serving_runs.specs.DdmTypes.declared.turns.Turn.{Turn};
ghost use Rattle.serving_runs.specs.TreeModel.Turns.Machine.{names_part};
ghost use Rattle.serving_runs.specs.TextModel.Schedule.{schedule_text};
ghost use Rattle.serving_runs.specs.ServingModel.Serving.{ServingRefusal, serve_from};
ghost use Rattle.serving.specs.Shown as served;
ghost use Rattle.serving.specs.Shown.{IsShown};
ghost use Rattle.any_runs.specs.AnyMachine.Any.{machine_state};
ghost use Rattle.serving_runs.specs.Served.{CanServe, Refuses, served_of};
ghost use Rattle.serving_runs.specs.declared.refusal.ServedRefusal.TheVariants as refusal;

use crate::refusal::ServedRefusal;
use crate::room::has_room;
use crate::served::Served;
use any_runs::of_any_machine::{AnyMachine, release};
use ddm_types::{Op, Turn};
use schedule_log::write_schedule;
use serving::{ServeRefusal, serve};
use std::alloc::Global;
use tree_config::TreeConfig;

fn refused(why: ServeRefusal) -> ServedRefusal
    ensures { (r : Result (List Turn) ServingRefusal) → served.Refuses why r
        → (result ≡ refusal.NoMemory) ⊎ Refuses result r }
{
    match why {
        ServeRefusal::NotServed(line) => ServedRefusal::NotServed(line),
        ServeRefusal::TooManyTurns(line) => ServedRefusal::TooManyTurns(line),
        ServeRefusal::NoMemory => ServedRefusal::NoMemory,
    }
}

// The turns with which a machine completes the operations.
fn turns_for(alloc: Global, machine: AnyMachine, ops: &[Op]) -> Result<Vec<Turn>, ServedRefusal>
    requires shown { IsShown (machine_state machine).machine }
    requires harts { All (λ op. names_part (Turn.Hart op.hart 0) (machine_state machine).machine ≡ true) ops.now }
    requires lines { length ops.now ≤ 1048576 }
    requires turns { (machine_state machine).turns ≡ 0 }
    ensures served { IfOk result (λ turns. serve_from 1 0 ops.now (machine_state machine).machine ≡ Ok turns.items) }
    ensures refused { IfErr result
        (λ r. (r ≡ refusal.NoMemory) ⊎ Refuses r (serve_from 1 0 ops.now (machine_state machine).machine)) }
{
    let mut served = Served { machine };
    let turns = serve(alloc, &mut served, ops);
    let Served { machine } = served;
    release(machine);
    match turns {
        Ok(turns) => Ok(turns),
        Err(why) => Err(refused(why)),
    }
}

/// The text of the schedule on which the machine of a tree, before its first turn, completes legal operations in their
/// order and no other; or why there is none.
#[tactic(auto, unfolding(crate::specs::Served::served_of))]
pub fn served_text(
    alloc: Global,
    tree: &TreeConfig,
    machine: AnyMachine,
    ops: &[Op],
) -> Result<Vec<u8>, ServedRefusal>
    requires { CanServe tree.now ops.now (machine_state machine) }
    ensures text { IfOk result
        (λ text. (turns : List Turn)
        × (served_of tree.now ops.now (machine_state machine).machine ≡ Ok turns)
        × (text.items ≡ schedule_text turns)) }
    ensures refused { IfErr result
        (λ r. (r ≡ refusal.NoMemory)
        ⊎ Refuses r (served_of tree.now ops.now (machine_state machine).machine)) }
{
    if !has_room(tree, machine.items().len()) {
        release(machine);
        return Err(ServedRefusal::NoRoom);
    }
    let turns = turns_for(alloc, machine, ops)?;
    match write_schedule(alloc, &turns) {
        Ok(text) => Ok(text),
        Err(_) => Err(ServedRefusal::NoMemory),
    }
}
