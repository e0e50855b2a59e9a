//! A run over a shelf that never fails, and sinks that never fail or only where they are full.

use crate::of_ddm_outside::{SoundShelf, SoundSink};
use asked_commands::answers::{RUN, named_files, words_of};
use asked_commands::asked::{ask_in_memory, ask_soundly};
use asked_commands::code;
use asked_commands::files::{
    Files, STORED_AND_LOADED, one_leaf, schedule, store_and_load, text_of,
};
use asked_commands::roomy_sink::RoomySink;
use std::alloc::Global;
use std::test::Fail;

/// One leaf that stores a word and loads it back.
fn shelf(alloc: Global) -> Result<SoundShelf, Fail> {
    let files = Files {
        tree: one_leaf().bytes(alloc)?,
        image: store_and_load(alloc)?,
        schedule: schedule(alloc, &["h 0 0"], 8)?,
    };
    Ok(SoundShelf::new(named_files(alloc, &files)?))
}

#[test]
fn a_report_is_held(rt: HostRuntime) -> Result<(), Fail> {
    let alloc = rt.alloc();
    let mut out = RoomySink::new(alloc)?;
    let mut faults_out = RoomySink::new(alloc)?;
    let status = ask_in_memory(
        alloc,
        &words_of(alloc, RUN)?,
        &mut shelf(alloc)?,
        &mut out,
        &mut faults_out,
    );
    assert_eq!(rt; code(&status), 0);
    assert_eq!(rt; out.bytes(), text_of(alloc, STORED_AND_LOADED)?.as_slice());
    Ok(())
}

#[test]
fn a_sound_run_is_done(rt: HostRuntime) -> Result<(), Fail> {
    let alloc = rt.alloc();
    let status = ask_soundly(
        alloc,
        &words_of(alloc, RUN)?,
        &mut shelf(alloc)?,
        &mut SoundSink::new(),
        &mut SoundSink::new(),
    );
    assert_eq!(rt; code(&status), 0);
    Ok(())
}
