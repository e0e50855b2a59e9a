//! The line of a fault is written.

ghost use Rattle.std.specs.Prelude.{◌≡◌};
ghost use Rattle.ddm_cli.specs.Top.{fault_line, line_head, Offers};

use crate::litmus_lines::{litmus_line, unread_test_line};
use crate::of_ddm_outside::Sink;
use crate::of_report::{FaultLine, memory_line, read_line, usage_line, write_all, write_line};
use crate::refusal_lines::{
    build_line, checkpoint_line, image_line, schedule_line, small_lists_line, tree_line_head,
    witness_line,
};
use crate::status::Status;
use crate::table_lines::{table_line, unread_table_line};
use crate::unknown_key::tell_rest;

// The line of a status; for an unknown key what is before it.
#[tactic(auto, unfolding(crate::specs::Top::fault_line))]
fn line_head(status: &Status) -> FaultLine
    ensures { result ≡ line_head status.now }
{
    match status {
        Status::Done => FaultLine::new(),
        Status::Usage(place) => usage_line(*place),
        Status::ImageLoad(refusal) => image_line(refusal),
        Status::ImageBuild(refusal) => build_line(refusal),
        Status::Tree(refusal) => tree_line_head(refusal),
        Status::Schedule(line, refusal) => schedule_line(*line, *refusal),
        Status::Witness(refusal) => witness_line(refusal),
        Status::Checkpoint(refusal) => checkpoint_line(refusal),
        Status::SmallLists(key) => small_lists_line(*key),
        Status::Table(number, refusal) => table_line(*number, *refusal),
        Status::Litmus(refusal) => litmus_line(*refusal),
        Status::ReadFault(role) => read_line(*role),
        Status::UnreadTest => unread_test_line(),
        Status::UnreadTable(number) => unread_table_line(*number),
        Status::WriteFault => write_line(),
        Status::NoMemory => memory_line(),
    }
}

/// Offers the line of a status. A fault of this sink changes no status.
pub fn tell<K: Sink>(faults_out: &mut K, status: &Status)
    ensures { Offers K.held K.faults faults_out.old faults_out.new (fault_line status.now) }
{
    let head = line_head(status);
    match write_all(faults_out, head.as_slice()) {
        Ok(()) => {
            let _ = tell_rest(faults_out, status);
        }
        Err(_) => {}
    }
}
