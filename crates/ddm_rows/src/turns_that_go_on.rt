//! The turn of a bus that goes on where a leaf waits, of machines whose lists are large enough; and lists that aren't.

use asked_commands::answers::{UNJAM, ask, ask_with, output, shelf, sink};
use asked_commands::code;
use asked_commands::files::{Files, TreeFile, add_to_one_word, load_and_exit, schedule, tree};
use std::alloc::Global;
use std::test::Fail;

/// The turns after which hart 0 waits for what it reads.
const ASKED: &[&str] = &["h 0 0", "h 0 0"];

/// The files of a read under way: hart 0 of two has made these turns.
fn one_read(alloc: Global, turns: &[&str]) -> Result<Files, Fail> {
    Ok(Files {
        tree: tree("(LL)", [4, 1, 1, 1]).bytes(alloc)?,
        image: load_and_exit(alloc)?,
        schedule: schedule(alloc, turns, 1)?,
    })
}

/// Four leaves that add to one word, before the first turn: three items, and lists of so many places.
fn four_leaves(alloc: Global, places: [u32; 3]) -> Result<Files, Fail> {
    let [down, requests, replies] = places;
    let tree = TreeFile {
        down,
        requests,
        replies,
        ..tree("(LLLL)", [2, 8, 1, 1])
    };
    Ok(Files {
        tree: tree.bytes(alloc)?,
        image: add_to_one_word(alloc)?,
        schedule: schedule(alloc, &[], 1)?,
    })
}

#[test]
fn a_read_goes_on(rt: HostRuntime) -> Result<(), Fail> {
    const TURNS: &[&str] = &["h 0 0", "h 0 0", "g 0 q 0", "g 0 r 1", "h 0 0"];
    const LINES: &[(usize, &[u8])] = &[
        (2, b"turn g 0 q 0\n"),
        (3, b"turn g 0 r 1\n"),
        (4, b"none\n"),
        (5, b"none\n"),
    ];
    let alloc = rt.alloc();
    for (made, line) in LINES {
        let files = one_read(alloc, &TURNS[..*made])?;
        assert_eq!(rt;
            output(alloc, UNJAM, &files)?.as_slice(),
            *line,
            "after {made}"
        );
    }
    Ok(())
}

#[test]
fn small_lists(rt: HostRuntime) -> Result<(), Fail> {
    const LISTS: &[([u32; 3], &str)] = &[
        ([16, 16, 16], "ddm: small lists: down"),
        ([23, 24, 24], "ddm: small lists: down"),
        ([24, 23, 23], "ddm: small lists: requests"),
        ([24, 24, 23], "ddm: small lists: replies"),
    ];
    let alloc = rt.alloc();
    for (places, line) in LISTS {
        let answer = ask(alloc, UNJAM, &four_leaves(alloc, *places)?)?;
        assert!(rt; answer.is_refusal(12, line), "{places:?}");
    }
    let files = four_leaves(alloc, [24, 24, 24])?;
    assert_eq!(rt;
        output(alloc, UNJAM, &files)?.as_slice(),
        b"none\n".as_slice()
    );
    Ok(())
}

// The lists are judged when the machine is built, before the schedule is read.
#[test]
fn small_lists_come_before_the_schedule(rt: HostRuntime) -> Result<(), Fail> {
    let alloc = rt.alloc();
    let mut files = four_leaves(alloc, [16, 24, 24])?;
    files.schedule = b"walk\n".to_vec(alloc)?;
    let mut shelf = shelf(alloc, &files, &[4])?;
    let answer = ask_with(
        alloc,
        UNJAM,
        &mut shelf,
        sink(alloc, &[])?,
        sink(alloc, &[])?,
    )?;
    assert!(rt; answer.is_refusal(12, "ddm: small lists: down"));
    files.image = b"no image".to_vec(alloc)?;
    assert!(rt; ask(alloc, UNJAM, &files)?.is_refusal(3, "ddm: image: not elf"));
    Ok(())
}

// Each file is read twice: all of its bytes, and then none behind them.
#[test]
fn a_read_of_a_file_fails(rt: HostRuntime) -> Result<(), Fail> {
    const READS: &[(u64, &str)] = &[
        (0, "ddm: cannot read the tree"),
        (1, "ddm: cannot read the tree"),
        (2, "ddm: cannot read the image"),
        (3, "ddm: cannot read the image"),
        (4, "ddm: cannot read the schedule"),
        (5, "ddm: cannot read the schedule"),
    ];
    let alloc = rt.alloc();
    let files = one_read(alloc, ASKED)?;
    for (number, line) in READS {
        let mut shelf = shelf(alloc, &files, &[*number])?;
        let answer = ask_with(
            alloc,
            UNJAM,
            &mut shelf,
            sink(alloc, &[])?,
            sink(alloc, &[])?,
        )?;
        assert!(rt; answer.is_refusal(6, line), "read {number}");
    }
    let mut shelf = shelf(alloc, &files, &[6])?;
    let answer = ask_with(
        alloc,
        UNJAM,
        &mut shelf,
        sink(alloc, &[])?,
        sink(alloc, &[])?,
    )?;
    assert!(rt; answer.is_done());
    Ok(())
}

// Each write takes ten bytes, and those before the one that fails are there.
#[test]
fn a_write_fails(rt: HostRuntime) -> Result<(), Fail> {
    const WRITES: &[(u64, &[u8])] = &[(0, b""), (1, b"turn g 0 q")];
    let alloc = rt.alloc();
    let files = one_read(alloc, ASKED)?;
    for (number, held) in WRITES {
        let mut shelf = shelf(alloc, &files, &[])?;
        let out = sink(alloc, &[*number])?;
        let answer = ask_with(alloc, UNJAM, &mut shelf, out, sink(alloc, &[])?)?;
        assert_eq!(rt; code(&answer.status), 7, "write {number}");
        assert_eq!(rt; answer.out.bytes(), *held, "write {number}");
        assert_eq!(rt;
            answer.faults_out.bytes(),
            b"ddm: cannot write\n".as_slice()
        );
    }
    Ok(())
}
