//! The command `unjam`: the turn that goes on where a leaf waits.

ghost use Rattle.std.specs.Prelude.{◌≡◌, true};
ghost use Rattle.ddm_cli.specs.AnyMachine.Any.{machine_state};
ghost use Rattle.ddm_cli.specs.DdmOutside.Causes.{HasCause};
ghost use Rattle.ddm_cli.specs.JamLaws.GoesOn.{has_large_lists, unjamming_turn};
ghost use Rattle.ddm_cli.specs.Lists.{list_refused, small_list};
ghost use Rattle.ddm_cli.specs.Printed.{Writes, unjam_line};

use crate::of_ddm_outside::{Failed, Sink};
use crate::of_ddm_types::{TreeSizes, Turn};
use crate::of_report::{Line, push_turn, write_all};
use crate::of_tree_config::TreeKey;
use ddm_words::Prints;
use no_jam::unjam;
use run_engine::AnyMachine;

// The first list that has less than eight places for each of so many items.
fn small_list(sizes: &TreeSizes, items: u32) -> Option<TreeKey>
    ensures { result ≡ small_list sizes.now items }
{
    let least = 8 * u64::from(items);
    if u64::from(sizes.down) < least {
        Some(TreeKey::Down)
    } else if u64::from(sizes.requests) < least {
        Some(TreeKey::Requests)
    } else if u64::from(sizes.replies) < least {
        Some(TreeKey::Replies)
    } else {
        None
    }
}

/// The first list that is too small for what is to be printed of a machine with so many items.
pub fn list_refused(prints: Prints, sizes: &TreeSizes, items: u32) -> Option<TreeKey>
    ensures { result ≡ list_refused prints sizes.now items }
{
    match prints {
        Prints::Unjamming => small_list(sizes, items),
        Prints::Report | Prints::Trace | Prints::Summary | Prints::Checkpoint => None,
    }
}

// The line of the turn that goes on, if a leaf waits.
fn unjam_line(turn: Option<Turn>) -> Line
    ensures { result ≡ unjam_line turn }
{
    let mut line = Line::new();
    match turn {
        Some(turn) => {
            line.push(b"turn ");
            let Ok(()) = push_turn(&mut line, turn) else {
                unreachable!();
            };
            line.push(b"\n");
        }
        None => line.push(b"none\n"),
    }
    line
}

/// Writes which turn of a bus goes on, if a leaf waits.
pub fn write_unjamming<K: Sink>(out: &mut K, machine: &AnyMachine) -> Result<(), Failed>
    requires { has_large_lists (machine_state machine.now).machine ≡ true }
    ensures written { Writes (K.held out.old) (K.held out.new) (unjam_line (unjamming_turn (machine_state machine.now).machine)) result }
    ensures cause { HasCause (K.faults out.old) (K.faults out.new) result }
{
    write_all(out, unjam_line(unjam(machine)).as_slice())
}
