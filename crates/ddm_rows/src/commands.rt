//! What each command puts out, on one leaf.

use asked_commands::answers::{
    RUN, TRACE, Turn, ask, has_start, line_number, missing, output, traced,
};
use asked_commands::files::{
    Files, STORED_AND_LOADED, TreeFile, image, load_and_exit, one_leaf, schedule, store_and_load,
    text_of, tree,
};
use std::test::Fail;

#[test]
fn store_and_load_back(rt: HostRuntime) -> Result<(), Fail> {
    let alloc = rt.alloc();
    let files = Files {
        tree: one_leaf().bytes(alloc)?,
        image: store_and_load(alloc)?,
        schedule: schedule(alloc, &["h 0 0"], 8)?,
    };
    let report = output(alloc, RUN, &files)?;
    assert_eq!(rt;
        report.as_slice(),
        text_of(alloc, STORED_AND_LOADED)?.as_slice()
    );
    Ok(())
}

#[test]
fn a_halted_hart_says_so_again(rt: HostRuntime) -> Result<(), Fail> {
    const TURNS: &[Turn] = &[
        ("h 0 0", "retired plain"),
        ("h 0 0", "retired plain"),
        ("h 0 0", "retired store 00020000 00000000 00000007"),
        ("h 0 0", "retired load 00020000 00000007"),
        ("h 0 0", "retired plain"),
        ("h 0 0", "retired plain"),
        ("h 0 0", "halted exit 7"),
        ("h 0 0", "halted exit 7"),
    ];
    let alloc = rt.alloc();
    let text = traced(
        alloc,
        one_leaf().bytes(alloc)?,
        store_and_load(alloc)?,
        TURNS,
    )?;
    assert!(rt; text.ends_with(&text_of(alloc, STORED_AND_LOADED)?));
    Ok(())
}

#[test]
fn no_turns(rt: HostRuntime) -> Result<(), Fail> {
    const LINES: &[&str] = &[
        "turns 0 retired 0 granted 0 busy 0",
        "hart 0 running pc 00010000 done 0",
        "regs 0 00000000 00030010 00000000 00000000 00000000 00000000 00000000 00000000 00000000 00000000 \
        00000001 00000000 00000000 00000000 00000000 00000000 00000000 00000000 00000000 00000000 00000000 \
        00000000 00000000 00000000 00000000 00000000 00000000 00000000 00000000 00000000 00000000",
        "item 2 00020000 00000000 00000000 00000000 00000000 leaf 0 way 2 E",
    ];
    let alloc = rt.alloc();
    let files = Files {
        tree: one_leaf().bytes(alloc)?,
        image: store_and_load(alloc)?,
        schedule: b"end\n".to_vec(alloc)?,
    };
    let report = output(alloc, RUN, &files)?;
    assert_eq!(rt; missing(&report, LINES), "");
    assert!(rt; !has_start(&report, "op "));
    Ok(())
}

#[test]
fn one_byte_of_output(rt: HostRuntime) -> Result<(), Fail> {
    const CODE: &[u32] = &[
        0x3e800893, // addi x17,x0,1000
        0x04800513, // addi x10,x0,72
        0x00000073, // ecall
    ];
    const TURNS: &[Turn] = &[
        ("h 0 0", "retired plain"),
        ("h 0 0", "retired plain"),
        ("h 0 0", "retired put 48"),
        ("h 0 0", "halted nofetch 0001000c"),
    ];
    let alloc = rt.alloc();
    let tree = tree("(L)", [4, 1, 1, 1]).bytes(alloc)?;
    let text = traced(alloc, tree, image(alloc, CODE, &[], 0)?, TURNS)?;
    assert_eq!(rt; missing(&text, &["out 0 48"]), "");
    Ok(())
}

// The same machine with items of 64 bytes has three of them.
#[test]
fn items_of_64_bytes(rt: HostRuntime) -> Result<(), Fail> {
    const ITEMS: &[&str] = &[
        "item 0 00010000 000202b7 00700313 0062a023 0002a383 05d00893 00038513 00000073 00000000 00000000 \
        00000000 00000000 00000000 00000000 00000000 00000000 00000000 leaf 0 way 0 E",
        "item 1 00020000 00000007 00000000 00000000 00000000 00000000 00000000 00000000 00000000 00000000 \
        00000000 00000000 00000000 00000000 00000000 00000000 00000000 leaf 0 way 1 E",
        "item 2 00030000 00000000 00000000 00000000 00000000 00000000 00000000 00000000 00000000 00000000 \
        00000000 00000000 00000000 00000000 00000000 00000000 00000000 leaf 0 way 2 E",
    ];
    let alloc = rt.alloc();
    let tree = TreeFile {
        item_bytes: 64,
        ..one_leaf()
    };
    let files = Files {
        tree: tree.bytes(alloc)?,
        image: store_and_load(alloc)?,
        schedule: schedule(alloc, &["h 0 0"], 8)?,
    };
    let report = output(alloc, RUN, &files)?;
    assert_eq!(rt; missing(&report, ITEMS), "");
    assert!(rt; !has_start(&report, "item 3 "));
    for line in STORED_AND_LOADED {
        assert!(rt;
            line.starts_with("item ") || line_number(&report, line).is_some(),
            "{line}"
        );
    }
    Ok(())
}

#[test]
fn depth_four(rt: HostRuntime) -> Result<(), Fail> {
    const LINES: &[&str] = &[
        "bus 0 read 0 data 0 erase 0 exclusive 0 out 0 inject 0",
        "bus 1 read 0 data 0 erase 0 exclusive 0 out 0 inject 0",
        "bus 2 read 0 data 0 erase 0 exclusive 0 out 0 inject 0",
        "bus 3 read 0 data 0 erase 0 exclusive 0 out 0 inject 0",
        "op 0 0.0.0.0.0.0.0.0.0 00010000 plain",
        "op 0 0.0.0.0.0.0.0.0.1 00010004 plain",
    ];
    let alloc = rt.alloc();
    let tree = TreeFile {
        shape: "((((L))))",
        ..one_leaf()
    };
    let files = Files {
        tree: tree.bytes(alloc)?,
        image: store_and_load(alloc)?,
        schedule: schedule(alloc, &["h 0 0"], 8)?,
    };
    let report = output(alloc, RUN, &files)?;
    assert_eq!(rt; missing(&report, LINES), "");
    assert!(rt; !has_start(&report, "bus 4 "));
    Ok(())
}

// A schedule is judged by its tree.
#[test]
fn a_hart_of_another_tree(rt: HostRuntime) -> Result<(), Fail> {
    let alloc = rt.alloc();
    for (shape, number) in [("(L)", 5), ("(LL)", 0)] {
        let files = Files {
            tree: tree(shape, [4, 1, 1, 1]).bytes(alloc)?,
            image: store_and_load(alloc)?,
            schedule: b"h 1 0\nend\n".to_vec(alloc)?,
        };
        assert_eq!(rt;
            asked_commands::code(&ask(alloc, RUN, &files)?.status),
            number
        );
    }
    Ok(())
}

#[test]
fn a_trace_and_then_the_report(rt: HostRuntime) -> Result<(), Fail> {
    const TURNS: &[&str] = &["h 0 0", "h 0 0", "g 0 q 0", "g 0 r 1", "h 0 0"];
    const TRACED: &[&str] = &[
        "t 0 h 0 0 retired plain",
        "t 1 h 0 0 issued read 1",
        "t 2 g 0 q 0 granted read 1 from child 0 to child 1",
        "t 3 g 0 r 1 granted data 1 from child 1 to child 0",
        "t 4 h 0 0 retired load 00020000 00000005",
    ];
    let alloc = rt.alloc();
    let files = Files {
        tree: tree("(LL)", [4, 1, 1, 1]).bytes(alloc)?,
        image: load_and_exit(alloc)?,
        schedule: schedule(alloc, TURNS, 1)?,
    };
    let mut both = text_of(alloc, TRACED)?;
    both.extend_from_slice(&output(alloc, RUN, &files)?)?;
    assert_eq!(rt; output(alloc, TRACE, &files)?.as_slice(), both.as_slice());
    Ok(())
}

#[test]
fn the_turns_of_a_seed(rt: HostRuntime) -> Result<(), Fail> {
    const SCHEDULE: &[&str] = &["schedule", "tree", "42", "3"];
    let alloc = rt.alloc();
    let files = Files {
        tree: tree("(LL)", [4, 1, 1, 1]).bytes(alloc)?,
        image: Vec::new(alloc),
        schedule: Vec::new(alloc),
    };
    let turns = output(alloc, SCHEDULE, &files)?;
    assert_eq!(rt;
        turns.as_slice(),
        b"g 0 r 1\nh 1 73\ng 0 q 1\nend\n".as_slice()
    );
    Ok(())
}

#[test]
fn a_seed_runs_its_schedule(rt: HostRuntime) -> Result<(), Fail> {
    const SEED: &[&str] = &["seed", "image", "tree", "42", "500"];
    const SCHEDULE: &[&str] = &["schedule", "tree", "42", "500"];
    let alloc = rt.alloc();
    for image in [load_and_exit(alloc)?, store_and_load(alloc)?] {
        let mut files = Files {
            tree: tree("(LL)", [4, 1, 1, 1]).bytes(alloc)?,
            image,
            schedule: Vec::new(alloc),
        };
        let seeded = output(alloc, SEED, &files)?;
        files.schedule = output(alloc, SCHEDULE, &files)?;
        assert_eq!(rt; seeded.as_slice(), output(alloc, RUN, &files)?.as_slice());
    }
    Ok(())
}

// Two rounds give 1,040 turns.
#[test]
fn a_made_image(rt: HostRuntime) -> Result<(), Fail> {
    const MAKE: &[&str] = &["make", "42", "2", "tree"];
    let alloc = rt.alloc();
    let files = Files {
        tree: tree("(LL)", [4, 64, 4, 4]).bytes(alloc)?,
        image: Vec::new(alloc),
        schedule: Vec::new(alloc),
    };
    let summary = output(alloc, MAKE, &files)?;
    assert!(rt; summary.starts_with(b"ddm 1\nturns 1040 retired "));
    assert!(rt; summary.ends_with(b"\nend\n"));
    let again = output(alloc, MAKE, &files)?;
    assert_eq!(rt; again.as_slice(), summary.as_slice());
    Ok(())
}

// The films themselves are tried over files (tests/check-films).
#[test]
fn a_page_is_whole(rt: HostRuntime) -> Result<(), Fail> {
    const PAGE: &[&str] = &["page", "image", "tree", "schedule"];
    let alloc = rt.alloc();
    let files = Files {
        tree: one_leaf().bytes(alloc)?,
        image: store_and_load(alloc)?,
        schedule: schedule(alloc, &["h 0 0"], 8)?,
    };
    let page = output(alloc, PAGE, &files)?;
    assert!(rt; page.starts_with(b"<!DOCTYPE html>\n"));
    assert!(rt; page.ends_with(b"</html>\n"));
    Ok(())
}
