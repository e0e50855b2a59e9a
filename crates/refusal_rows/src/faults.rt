//! Reads and writes that fail.

use asked_commands::answers::{RUN, ask, ask_with, shelf, sink};
use asked_commands::files::{
    Files, STORED_AND_LOADED, one_leaf, schedule, store_and_load, text_of,
};
use asked_commands::{Status, code};
use std::test::Fail;

// Each file is read twice: all of its bytes, and then none after them.
#[test]
fn a_read_fails(rt: HostRuntime) -> Result<(), Fail> {
    let alloc = rt.alloc();
    let files = Files {
        tree: one_leaf().bytes(alloc)?,
        image: store_and_load(alloc)?,
        schedule: schedule(alloc, &["h 0 0"], 8)?,
    };
    let reads = [
        (0, "ddm: cannot read the tree"),
        (1, "ddm: cannot read the tree"),
        (2, "ddm: cannot read the image"),
        (3, "ddm: cannot read the image"),
        (4, "ddm: cannot read the schedule"),
        (5, "ddm: cannot read the schedule"),
    ];
    for (number, line) in reads {
        let mut shelf = shelf(alloc, &files, &[number])?;
        let answer = ask_with(alloc, RUN, &mut shelf, sink(alloc, &[])?, sink(alloc, &[])?)?;
        assert!(rt; answer.is_refusal(6, line), "read {number}");
    }
    let mut shelf = shelf(alloc, &files, &[6])?;
    let answer = ask_with(alloc, RUN, &mut shelf, sink(alloc, &[])?, sink(alloc, &[])?)?;
    assert!(rt; answer.is_done());
    assert_eq!(rt;
        answer.out.bytes(),
        text_of(alloc, STORED_AND_LOADED)?.as_slice()
    );
    Ok(())
}

// Each write takes ten bytes, and those before the one that fails are there.
#[test]
fn a_write_fails(rt: HostRuntime) -> Result<(), Fail> {
    let alloc = rt.alloc();
    let files = Files {
        tree: one_leaf().bytes(alloc)?,
        image: store_and_load(alloc)?,
        schedule: schedule(alloc, &["h 0 0"], 8)?,
    };
    let report = text_of(alloc, STORED_AND_LOADED)?;
    let mut held = Vec::new(alloc);
    for (number, piece) in report.chunks(10).enumerate() {
        let mut shelf = shelf(alloc, &files, &[])?;
        let out = sink(alloc, &[number as u64])?;
        let answer = ask_with(alloc, RUN, &mut shelf, out, sink(alloc, &[])?)?;
        assert_eq!(rt; code(&answer.status), 7, "write {number}");
        assert_eq!(rt; answer.out.bytes(), held.as_slice(), "write {number}");
        assert_eq!(rt;
            answer.faults_out.bytes(),
            b"ddm: cannot write\n".as_slice()
        );
        held.extend_from_slice(piece)?;
    }
    Ok(())
}

#[test]
fn no_line_of_a_fault_is_written(rt: HostRuntime) -> Result<(), Fail> {
    let alloc = rt.alloc();
    let files = Files {
        tree: one_leaf().bytes(alloc)?,
        image: store_and_load(alloc)?,
        schedule: schedule(alloc, &["h 0 0"], 8)?,
    };
    let mut shelf = shelf(alloc, &files, &[])?;
    let failing = sink(alloc, &[0, 1, 2])?;
    let answer = ask_with(alloc, RUN, &mut shelf, sink(alloc, &[])?, failing)?;
    assert!(rt; answer.is_done());
    assert_eq!(rt;
        answer.out.bytes(),
        text_of(alloc, STORED_AND_LOADED)?.as_slice()
    );
    Ok(())
}

// The status is the same.
#[test]
fn the_line_of_a_fault_fails(rt: HostRuntime) -> Result<(), Fail> {
    let alloc = rt.alloc();
    let files = Files {
        tree: one_leaf().bytes(alloc)?,
        image: store_and_load(alloc)?,
        schedule: b"h 0 0\n".to_vec(alloc)?,
    };
    let writes: [(u64, &[u8]); 2] = [(0, b""), (1, b"ddm: sched")];
    for (number, held) in writes {
        let mut shelf = shelf(alloc, &files, &[])?;
        let failing = sink(alloc, &[number])?;
        let answer = ask_with(alloc, RUN, &mut shelf, sink(alloc, &[])?, failing)?;
        assert_eq!(rt; code(&answer.status), 5);
        assert_eq!(rt; answer.out.bytes(), b"".as_slice());
        assert_eq!(rt; answer.faults_out.bytes(), held);
    }
    Ok(())
}

// A schedule of more than one piece: its first line is refused, and the second piece, whose read fails, is never asked for.
#[test]
fn a_refused_first_line_is_judged_before_the_rest_is_read(rt: HostRuntime) -> Result<(), Fail> {
    let alloc = rt.alloc();
    let mut turns = b"h 1 0\n".to_vec(alloc)?;
    turns.extend_from_slice(&schedule(alloc, &["h 0 0"], 12_000)?)?;
    assert_eq!(rt; turns.len(), 72_010);
    let files = Files {
        tree: one_leaf().bytes(alloc)?,
        image: store_and_load(alloc)?,
        schedule: turns,
    };
    let mut shelf = shelf(alloc, &files, &[5])?;
    let answer = ask_with(alloc, RUN, &mut shelf, sink(alloc, &[])?, sink(alloc, &[])?)?;
    assert!(rt; answer.is_refusal(5, "ddm: schedule line 1: no such hart"));
    Ok(())
}

#[test]
fn a_missing_file(rt: HostRuntime) -> Result<(), Fail> {
    let alloc = rt.alloc();
    let files = Files {
        tree: one_leaf().bytes(alloc)?,
        image: Vec::new(alloc),
        schedule: Vec::new(alloc),
    };
    let words = ["run", "a program", "tree", "schedule"];
    assert!(rt; ask(alloc, &words, &files)?.is_refusal(6, "ddm: cannot read the image"));
    Ok(())
}

#[test]
fn want_of_memory_has_a_number_too(rt: HostRuntime) {
    assert_eq!(rt; code(&Status::NoMemory), 8);
}
