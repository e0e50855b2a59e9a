//! The top call over shelves and sinks whose own contracts say what can fail, and what its clauses alone say of it there.

ghost use Rattle.std.specs.Prelude.{map};
ghost use Rattle.std.specs.String.{string_bytes};
ghost use Rattle.asked_commands.specs.Asked.{IsNoFault, RunIsHeld};

use crate::of_ddm_outside::{SoundShelf, SoundSink};
use crate::roomy_sink::RoomySink;
use ddm_cli::{Status, ddm_main};
use std::alloc::Global;

/// A command where no read and no write can fail: its status is no such fault.
pub fn ask_soundly(
    alloc: Global,
    words: &[String],
    files: &mut SoundShelf,
    out: &mut SoundSink,
    faults_out: &mut SoundSink,
) -> Status
    ensures { IsNoFault result }
{
    ddm_main(alloc, words, files, out, faults_out)
}

/// A command in memory: where its words say a run of files that are accepted, and the sink has room for what is printed of it, the sink
/// holds that behind what it held before, or memory ran out.
pub fn ask_in_memory(
    alloc: Global,
    words: &[String],
    files: &mut SoundShelf,
    out: &mut RoomySink,
    faults_out: &mut RoomySink,
) -> Status
    ensures { RunIsHeld (map string_bytes words.now) files.old out.old out.new result }
{
    ddm_main(alloc, words, files, out, faults_out)
}
