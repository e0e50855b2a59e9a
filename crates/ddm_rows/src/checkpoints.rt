//! Checkpoints: what is refused of a file, and runs that go on from one.
ghost use Rattle.std.specs.Prelude.{◌≡◌, All, IfOk};

use crate::of_ddm_outside::{MemoryShelf, NamedFile};
use crate::several_leaves::{FLAG_ASKED, FLAG_READ, WORD_READ, WORD_STORED};
use asked_commands::answers::{Answer, RUN, Turn, ask_with, named, output, sink};
use asked_commands::files::{
    Files, TreeFile, changed, image, one_leaf, schedule, store_and_load, tree, word_and_flag,
};
use std::alloc::Global;
use std::test::Fail;

const SAVE: &[&str] = &["save", "image", "tree", "schedule"];

const RESUME: &[&str] = &["resume", "image", "tree", "checkpoint", "schedule"];

fn files_with(alloc: Global, files: &Files, checkpoint: &[u8]) -> Result<Vec<NamedFile>, Fail>
    ensures { IfOk result (λ files. All (λ file. file.faults ≡ 0) files.items) }
{
    let mut named_files = Vec::new(alloc);
    named_files.push(named(alloc, "tree", &files.tree)?)?;
    named_files.push(named(alloc, "image", &files.image)?)?;
    named_files.push(named(alloc, "checkpoint", checkpoint)?)?;
    named_files.push(named(alloc, "schedule", &files.schedule)?)?;
    Ok(named_files)
}

/// What comes of going on from a checkpoint with these files.
fn resumed(alloc: Global, files: &Files, checkpoint: &[u8]) -> Result<Answer, Fail> {
    let mut shelf = MemoryShelf::new(files_with(alloc, files, checkpoint)?, Vec::new(alloc));
    ask_with(
        alloc,
        RESUME,
        &mut shelf,
        sink(alloc, &[])?,
        sink(alloc, &[])?,
    )
}

// The machine of one leaf before its first turn.
#[test]
fn refused_files(rt: HostRuntime) -> Result<(), Fail> {
    let alloc = rt.alloc();
    let files = Files {
        tree: one_leaf().bytes(alloc)?,
        image: store_and_load(alloc)?,
        schedule: schedule(alloc, &[], 1)?,
    };
    let wide = TreeFile {
        item_bytes: 64,
        ..one_leaf()
    };
    let wide = Files {
        tree: wide.bytes(alloc)?,
        image: store_and_load(alloc)?,
        schedule: schedule(alloc, &[], 1)?,
    };
    let file = output(alloc, SAVE, &files)?;
    assert_eq!(rt; file.len(), 396);
    assert!(rt; file.starts_with(&[0x44, 0x44, 0x4d, 0x43, 1, 0, 0, 0]));
    assert!(rt; resumed(alloc, &files, &file)?.is_done());
    let mut shorter = file.to_vec(alloc)?;
    shorter.pop();
    let mut longer = file.to_vec(alloc)?;
    longer.push(0)?;
    let version = changed(alloc, &file, 4, &[2])?;
    let refused = [
        (&files, shorter.as_slice(), "ddm: checkpoint: cut 98"),
        (&files, longer.as_slice(), "ddm: checkpoint: after end"),
        (&wide, file.as_slice(), "ddm: checkpoint: other machine 4"),
        (
            &files,
            version.as_slice(),
            "ddm: checkpoint: wrong version 2",
        ),
    ];
    for (files, checkpoint, line) in refused {
        assert!(rt;
            resumed(alloc, files, checkpoint)?.is_refusal(11, line),
            "{line}"
        );
    }
    Ok(())
}

/// In the file of `the_bus_that_is_named`: what the directory over bus 2 holds of item 0.
const HOLD_OF_BUS_2: usize = 556;

// The read of leaf 1 has gone up to bus 0, which granted it, and leaf 0 has answered. So the directory over bus 2 holds nothing: no child
// of its holds the item. A file that says that it holds the item Shared breaks a rule of bus 2, and none of bus 0.
#[test]
fn the_bus_that_is_named(rt: HostRuntime) -> Result<(), Fail> {
    const CODE: &[u32] = &[
        0x000102b7, // lui x5,0x10
        0x0002a383, // lw x7,0(x5)
        0x0002a403, // lw x8,0(x5)
        0x00000073, // ecall
    ];
    const TURNS: &[&str] = &["h 1 0", "h 1 0", "g 2 q 0", "g 0 q 1", "g 1 d", "g 1 r 0"];
    let alloc = rt.alloc();
    let files = Files {
        tree: tree("((L)(L))", [4, 1, 1, 1]).bytes(alloc)?,
        image: image(alloc, CODE, &[], 0)?,
        schedule: schedule(alloc, TURNS, 1)?,
    };
    let file = output(alloc, SAVE, &files)?;
    assert_eq!(rt; file.len(), 792);
    let holds = changed(alloc, &file, HOLD_OF_BUS_2, &[1])?;
    let answer = resumed(alloc, &files, &holds)?;
    assert!(rt; answer.is_refusal(11, "ddm: checkpoint: broken rule 2 0"));
    Ok(())
}

/// Two buses over two leaves each, a word and a flag, and these turns.
fn run_of(alloc: Global, turns: &[Turn]) -> Result<Files, Fail> {
    let mut lines = Vec::new(alloc);
    for turn in turns {
        lines.push(turn.0)?;
    }
    Ok(Files {
        tree: tree("((LL)(LL))", [4, 1, 1, 1]).bytes(alloc)?,
        image: word_and_flag(alloc)?,
        schedule: schedule(alloc, &lines, 1)?,
    })
}

// Wherever a run is cut in two, its report is that of the whole.
#[test]
fn a_run_in_two_parts(rt: HostRuntime) -> Result<(), Fail> {
    let alloc = rt.alloc();
    let mut turns = WORD_READ.to_vec(alloc)?;
    turns.extend_from_slice(WORD_STORED)?;
    turns.extend_from_slice(FLAG_ASKED)?;
    turns.extend_from_slice(FLAG_READ)?;
    let whole = output(alloc, RUN, &run_of(alloc, &turns)?)?;
    for made in 0..turns.len() {
        let (before, behind) = turns.split_at(made);
        let checkpoint = output(alloc, SAVE, &run_of(alloc, before)?)?;
        let answer = resumed(alloc, &run_of(alloc, behind)?, &checkpoint)?;
        assert!(rt; answer.is_done(), "after {made}");
        assert_eq!(rt; answer.out.bytes(), whole.as_slice(), "after {made}");
    }
    Ok(())
}
