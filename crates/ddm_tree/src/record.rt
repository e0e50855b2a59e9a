//! What a bus has granted is counted.

ghost use Rattle.std.specs.Prelude.{◌≡◌, ◌<◌, ◌≤◌, true};
ghost use Rattle.std.specs.List.{list_all};
ghost use Rattle.ddm_tree.specs.TreeModel.Turns.Machine.{one_more, traffic_with};
ghost use Rattle.ddm_tree.specs.Machine.{ops_after, traffic_after, spare_after, traffic_within};

use crate::of_ddm_types::{LogEntry, TurnAnswer, TxKind};
use crate::of_tree_model::Traffic;
use operation_list::Operations;

/// Keeps what an answer adds: an operation that completed, a transaction that was granted.
#[inline(always)]
pub(crate) fn record(
    answer: &TurnAnswer,
    ops: &mut Operations,
    traffic: &mut Vec<Traffic>,
    spare: &mut u32,
)
    requires room { spare.old ≤ ops.old.spare }
    requires spare { 0 < spare.old }
    requires counts { list_all (traffic_within 4294967294) traffic.old.items ≡ true }
    ensures ops { ops.new.items ≡ ops_after answer.now ops.old.items }
    ensures traffic { traffic.new.items ≡ traffic_after answer.now traffic.old.items }
    ensures spare { spare.new ≡ spare_after answer.now spare.old }
    ensures room { spare.new ≤ ops.new.spare }
{
    match answer {
        TurnAnswer::Retired(op) => {
            ops.push(op);
            *spare -= 1;
        }
        TurnAnswer::Granted(entry) => count_at(traffic, *entry),
        _ => {}
    }
}

/// Counts a grant at its bus.
fn count_at(traffic: &mut Vec<Traffic>, entry: LogEntry)
    requires { list_all (traffic_within 4294967294) traffic.old.items ≡ true }
    ensures { traffic.new.items ≡ traffic_with entry traffic.old.items }
{
    if let Some(at_bus) = traffic.get_mut(entry.bus.0 as usize) {
        count(at_bus, entry.kind);
    }
}

/// Counts a grant. No branch depends on its kind, which can't be foreseen.
#[inline(always)]
fn count(traffic: &mut Traffic, kind: TxKind)
    requires { traffic_within 4294967294 traffic.old ≡ true }
    ensures { traffic.new ≡ one_more kind traffic.old }
{
    traffic.reads += u32::from(matches!(kind, TxKind::ReadTx));
    traffic.copies += u32::from(matches!(kind, TxKind::DataTx));
    traffic.erases += u32::from(matches!(kind, TxKind::EraseTx));
    traffic.exclusives += u32::from(matches!(kind, TxKind::ExclusiveTx));
    traffic.injects += u32::from(matches!(kind, TxKind::InjectTx));
    traffic.outs += u32::from(matches!(kind, TxKind::OutTx));
}
