//! What the runs of many seeds come to.

use asked_commands::answers::{ask, ask_with, output, shelf, sink};
use asked_commands::code;
use asked_commands::files::{Files, code_segment, image_of, store_and_load, tree};
use std::alloc::Global;
use std::test::Fail;

/// Two harts that exit with their numbers, in two instructions each.
fn two_exits(alloc: Global) -> Result<Files, Fail> {
    const CODE: &[u32] = &[
        0x05d00893, // addi x17,x0,93
        0x00000073, // ecall
    ];
    Ok(Files {
        tree: tree("(LL)", [4, 1, 1, 1]).bytes(alloc)?,
        image: image_of(alloc, &[code_segment(alloc, CODE)?])?,
        schedule: Vec::new(alloc),
    })
}

// How many turns each hart has in six was counted by hand, from the published generator.
#[test]
fn eight_seeds(rt: HostRuntime) -> Result<(), Fail> {
    const WORDS: &[&str] = &["outcomes", "image", "tree", "0", "8", "6"];
    let alloc = rt.alloc();
    let files = two_exits(alloc)?;
    let lines = "outcomes 4 runs 8\n\
        outcome 4 1 hart 0 exit 0 out - hart 1 exit 1 out -\n\
        outcome 2 3 hart 0 exit 0 out - hart 1 running out -\n\
        outcome 1 0 hart 0 running out - hart 1 running out -\n\
        outcome 1 6 hart 0 running out - hart 1 exit 1 out -\n\
        end\n";
    assert_eq!(rt; output(alloc, WORDS, &files)?.as_slice(), lines.as_bytes());
    Ok(())
}

// Three turns that do something are one too few. Which hart has two of them comes from an independent simulator.
#[test]
fn recorded_runs(rt: HostRuntime) -> Result<(), Fail> {
    const WORDS: &[&str] = &["survey", "image", "tree", "skewed", "0", "8", "3"];
    let alloc = rt.alloc();
    let files = two_exits(alloc)?;
    let lines = "survey 2 runs 8\n\
        outcome 4 0 turns hart 0 exit 0 out - hart 1 running out -\n\
        outcome 4 2 turns hart 0 running out - hart 1 exit 1 out -\n\
        end\n";
    assert_eq!(rt; output(alloc, WORDS, &files)?.as_slice(), lines.as_bytes());
    Ok(())
}

// Both harts store 7 to one word and read it back.
#[test]
fn one_outcome(rt: HostRuntime) -> Result<(), Fail> {
    const WORDS: &[&str] = &["outcomes", "image", "tree", "100", "25", "2000"];
    let alloc = rt.alloc();
    let files = Files {
        tree: tree("((L)(L))", [2, 1, 1, 1]).bytes(alloc)?,
        image: store_and_load(alloc)?,
        schedule: Vec::new(alloc),
    };
    let lines = "outcomes 1 runs 25\n\
        outcome 25 100 hart 0 exit 7 out - hart 1 exit 7 out -\n\
        end\n";
    assert_eq!(rt; output(alloc, WORDS, &files)?.as_slice(), lines.as_bytes());
    Ok(())
}

#[test]
fn the_last_seed(rt: HostRuntime) -> Result<(), Fail> {
    const LAST: &str = "18446744073709551615";
    const ONE: &[&str] = &["outcomes", "image", "tree", LAST, "1", "0"];
    const TWO: &[&str] = &["outcomes", "image", "tree", LAST, "2", "0"];
    let alloc = rt.alloc();
    let files = two_exits(alloc)?;
    let lines = "outcomes 1 runs 1\n\
        outcome 1 18446744073709551615 hart 0 running out - hart 1 running out -\n\
        end\n";
    assert_eq!(rt; output(alloc, ONE, &files)?.as_slice(), lines.as_bytes());
    assert!(rt; ask(alloc, TWO, &files)?.is_refusal(2, "ddm: usage: word 4"));
    Ok(())
}

#[test]
fn a_read_or_a_write_fails(rt: HostRuntime) -> Result<(), Fail> {
    const WORDS: &[&str] = &["outcomes", "image", "tree", "0", "2", "6"];
    const READS: &[(u64, &str)] = &[
        (0, "ddm: cannot read the tree"),
        (2, "ddm: cannot read the image"),
    ];
    let alloc = rt.alloc();
    let files = two_exits(alloc)?;
    for (number, line) in READS {
        let mut failing = shelf(alloc, &files, &[*number])?;
        let answer = ask_with(
            alloc,
            WORDS,
            &mut failing,
            sink(alloc, &[])?,
            sink(alloc, &[])?,
        )?;
        assert!(rt; answer.is_refusal(6, line), "{line}");
    }
    let mut files = shelf(alloc, &files, &[])?;
    let answer = ask_with(
        alloc,
        WORDS,
        &mut files,
        sink(alloc, &[1])?,
        sink(alloc, &[])?,
    )?;
    assert_eq!(rt; code(&answer.status), 7);
    assert_eq!(rt; answer.out.bytes(), b"outcomes 2".as_slice());
    Ok(())
}
