//! Leaves that share items: what each turn answers, and what is left. Hart and leaf have one number, and bus 0 is the top's.

use asked_commands::answers::{RUN, Turn, has_start, line_number, missing, output, traced};
use asked_commands::files::{
    Files, TreeFile, add_to_one_word, image, load_and_exit, load_two_words, schedule, text_of,
    tree, word_and_flag,
};
use std::alloc::Global;
use std::test::Fail;

// Hart 0 reads an item of leaf 1.
#[test]
fn one_read(rt: HostRuntime) -> Result<(), Fail> {
    const TURNS: &[Turn] = &[
        ("h 0 0", "retired plain"),
        ("h 0 0", "issued read 1"),
        ("g 0 q 0", "granted read 1 from child 0 to child 1"),
        ("g 0 r 1", "granted data 1 from child 1 to child 0"),
        ("h 0 0", "retired load 00020000 00000005"),
    ];
    const LINES: &[&str] = &[
        "turns 5 retired 2 granted 2 busy 0",
        "bus 0 read 1 data 1 erase 0 exclusive 0 out 0 inject 0",
        "item 1 00020000 00000005 00000000 00000000 00000000 leaf 0 way 1 SS",
        "op 0 0.0.0 00010000 plain",
        "op 0 2.0.1 00010004 load 00020000 00000005",
    ];
    let alloc = rt.alloc();
    let tree = tree("(LL)", [4, 1, 1, 1]).bytes(alloc)?;
    let text = traced(alloc, tree, load_and_exit(alloc)?, TURNS)?;
    assert_eq!(rt; missing(&text, LINES), "");
    Ok(())
}

// Hart 2 joins the read of hart 0, and both get the data.
#[test]
fn a_joined_read(rt: HostRuntime) -> Result<(), Fail> {
    const TURNS: &[Turn] = &[
        ("h 0 0", "retired plain"),
        ("h 0 0", "issued read 1"),
        ("h 2 0", "retired plain"),
        ("h 2 0", "issued read 1"),
        ("g 0 q 0", "granted read 1 from child 0 to child 1"),
        ("g 0 q 2", "granted read 1 from child 2 to joined"),
        ("h 2 0", "waiting 1"),
        ("g 0 d", "empty"),
        ("g 0 r 1", "granted data 1 from child 1 to readers"),
        ("h 0 0", "retired load 00020000 00000005"),
        ("h 2 0", "retired load 00020000 00000005"),
    ];
    const LINES: &[&str] = &[
        "item 1 00020000 00000005 00000000 00000000 00000000 leaf 0 way 1 SSS",
        "op 0 3.0.1 00010004 load 00020000 00000005",
        "op 2 3.2.1 00010004 load 00020000 00000005",
    ];
    let alloc = rt.alloc();
    let tree = tree("(LLL)", [4, 1, 1, 1]).bytes(alloc)?;
    let text = traced(alloc, tree, load_and_exit(alloc)?, TURNS)?;
    assert_eq!(rt; missing(&text, LINES), "");
    Ok(())
}

// Both ask to erase the item, hart 1 is granted first, and hart 0 then takes the item from it.
#[test]
fn two_writers(rt: HostRuntime) -> Result<(), Fail> {
    const CODE: &[u32] = &[
        0x000202b7, // lui x5,0x20
        0x0002a383, // lw x7,0(x5)
        0x00150313, // addi x6,x10,1
        0x0062a023, // sw x6,0(x5)
    ];
    const TURNS: &[Turn] = &[
        ("h 0 0", "retired plain"),
        ("h 0 0", "issued read 1"),
        ("g 0 q 0", "granted read 1 from child 0 to child 1"),
        ("g 0 r 1", "granted data 1 from child 1 to child 0"),
        ("h 0 0", "retired load 00020000 00000005"),
        ("h 0 0", "retired plain"),
        ("h 0 0", "issued erase 1"),
        ("h 1 0", "retired plain"),
        ("h 1 0", "retired load 00020000 00000005"),
        ("h 1 0", "retired plain"),
        ("h 1 0", "issued erase 1"),
        ("g 0 q 1", "granted erase 1 from child 1 to all"),
        ("g 0 q 0", "busy item 0 1 uperase 1"),
        ("g 0 d", "granted exclusive 1 from parent to child 1"),
        ("h 1 0", "retired store 00020000 00000005 00000002"),
        ("g 0 q 0", "granted read 1 from child 0 to child 1"),
        ("g 0 r 1", "granted data 1 from child 1 to child 0"),
        ("g 0 q 0", "granted erase 1 from child 0 to all"),
        ("g 0 d", "granted exclusive 1 from parent to child 0"),
        ("h 0 0", "retired store 00020000 00000002 00000001"),
    ];
    const LINES: &[&str] = &[
        "turns 20 retired 8 granted 8 busy 1",
        "bus 0 read 2 data 2 erase 2 exclusive 2 out 0 inject 0",
        "item 1 00020000 00000001 00000000 00000000 00000000 leaf 0 way 1 E-",
    ];
    const ORDER: &[&str] = &[
        "op 0 0.0.0 00010000 plain",
        "op 0 2.0.1 00010004 load 00020000 00000005",
        "op 0 2.0.2 00010008 plain",
        "op 1 2.1.0 00010000 plain",
        "op 1 2.1.1 00010004 load 00020000 00000005",
        "op 1 2.1.2 00010008 plain",
        "op 1 4.1.3 0001000c store 00020000 00000005 00000002",
        "op 0 8.0.3 0001000c store 00020000 00000002 00000001",
        "end",
    ];
    let alloc = rt.alloc();
    let tree = tree("(LL)", [4, 1, 1, 1]).bytes(alloc)?;
    let text = traced(alloc, tree, image(alloc, CODE, &[5], 16)?, TURNS)?;
    assert_eq!(rt; missing(&text, LINES), "");
    assert!(rt; text.ends_with(&text_of(alloc, ORDER)?));
    Ok(())
}

// Reserves the word at the front of the data, and stores what it read there if the reservation lasts.
fn reserve_and_store(alloc: Global) -> Result<Vec<u8>, Fail> {
    const CODE: &[u32] = &[
        0x000202b7, // lui x5,0x20
        0x1002a3af, // lr.w x7,(x5)
        0x1872a32f, // sc.w x6,x7,(x5)
    ];
    image(alloc, CODE, &[5], 16)
}

#[test]
fn a_reservation_is_kept(rt: HostRuntime) -> Result<(), Fail> {
    const TURNS: &[Turn] = &[
        ("h 1 0", "retired plain"),
        ("h 1 0", "retired lr 00020000 00000005"),
        ("h 1 0", "retired scok 00020000 00000005 00000005"),
    ];
    let alloc = rt.alloc();
    let tree = tree("(LL)", [4, 1, 1, 1]).bytes(alloc)?;
    let text = traced(alloc, tree, reserve_and_store(alloc)?, TURNS)?;
    let registers = "regs 1 00000000 00030000 00000000 00000000 00020000 00000000 00000005 ";
    assert!(rt; has_start(&text, registers));
    Ok(())
}

// Hart 0 stores between the two instructions of hart 1.
#[test]
fn a_reservation_is_lost(rt: HostRuntime) -> Result<(), Fail> {
    const TURNS: &[Turn] = &[
        ("h 1 0", "retired plain"),
        ("h 1 0", "retired lr 00020000 00000005"),
        ("h 0 0", "retired plain"),
        ("h 0 0", "issued read 1"),
        ("g 0 q 0", "granted read 1 from child 0 to child 1"),
        ("g 0 r 1", "granted data 1 from child 1 to child 0"),
        ("h 0 0", "retired lr 00020000 00000005"),
        ("h 0 0", "issued erase 1"),
        ("g 0 q 0", "granted erase 1 from child 0 to all"),
        ("g 0 d", "granted exclusive 1 from parent to child 0"),
        ("h 0 0", "retired scok 00020000 00000005 00000005"),
        ("h 1 0", "retired scfail 00020000"),
    ];
    const LINES: &[&str] = &[
        "op 0 2.0.1 00010004 lr 00020000 00000005",
        "op 0 4.0.2 00010008 scok 00020000 00000005 00000005",
        "op 1 4.1.2 00010008 scfail 00020000",
    ];
    let alloc = rt.alloc();
    let tree = tree("(LL)", [4, 1, 1, 1]).bytes(alloc)?;
    let text = traced(alloc, tree, reserve_and_store(alloc)?, TURNS)?;
    let registers = "regs 1 00000000 00030000 00000000 00000000 00020000 00000001 00000005 ";
    assert_eq!(rt; missing(&text, LINES), "");
    assert!(rt; has_start(&text, registers));
    Ok(())
}

/// The word reaches harts 0 and 3, and hart 0 is granted its store.
pub const WORD_READ: &[Turn] = &[
    ("h 3 0", "retired plain"),
    ("h 3 0", "issued read 2"),
    ("g 2 q 1", "granted read 2 from child 1 to child 0"),
    ("g 2 r 0", "granted data 2 from child 0 to child 1"),
    ("h 3 0", "retired load 00020000 00000005"),
    ("h 3 0", "retired plain"),
    ("h 0 0", "retired plain"),
    ("h 0 0", "issued read 2"),
    ("g 1 q 0", "granted read 2 from child 0 to parent"),
    ("g 0 q 0", "granted read 2 from child 0 to child 1"),
    ("g 2 d", "granted read 2 from parent to child 0"),
    ("g 2 r 0", "granted data 2 from child 0 to parent"),
    ("g 0 r 1", "granted data 2 from child 1 to child 0"),
    ("g 1 d", "granted data 2 from parent to child 0"),
    ("h 0 0", "retired load 00020000 00000005"),
    ("h 0 0", "retired plain"),
    ("h 0 0", "issued erase 2"),
    ("g 1 q 0", "granted erase 2 from child 0 to all"),
    ("g 0 q 0", "granted erase 2 from child 0 to all"),
    ("g 0 d", "granted exclusive 2 from parent to child 0"),
    ("g 1 d", "granted exclusive 2 from parent to child 0"),
];

/// Hart 0 stores, and hart 3, which the erase hasn't reached, still reads the old word.
pub const WORD_STORED: &[Turn] = &[
    ("h 0 0", "retired store 00020000 00000005 00000004"),
    ("h 3 0", "retired load 00020000 00000005"),
];

/// Hart 0 asks for the flag: its read waits behind the erase on the way to bus 2.
pub const FLAG_ASKED: &[Turn] = &[
    ("h 0 0", "issued read 3"),
    ("g 1 q 0", "granted read 3 from child 0 to parent"),
];

/// Hart 0 gets the flag and stores to it, and hart 3 reads it.
pub const FLAG_READ: &[Turn] = &[
    ("g 0 q 0", "granted read 3 from child 0 to child 1"),
    ("g 2 d", "granted erase 2 from parent to all"),
    ("g 2 d", "granted read 3 from parent to child 1"),
    ("g 2 r 1", "granted data 3 from child 1 to parent"),
    ("g 0 r 1", "granted data 3 from child 1 to child 0"),
    ("g 1 d", "granted data 3 from parent to child 0"),
    ("g 1 q 0", "granted erase 3 from child 0 to all"),
    ("g 0 q 0", "granted erase 3 from child 0 to all"),
    ("g 0 d", "granted exclusive 3 from parent to child 0"),
    ("g 1 d", "granted exclusive 3 from parent to child 0"),
    ("h 0 0", "retired store 00020010 00000000 00000004"),
    ("g 2 d", "granted erase 3 from parent to all"),
    ("h 3 0", "issued read 3"),
    ("g 2 q 1", "granted read 3 from child 1 to parent"),
    ("g 0 q 1", "granted read 3 from child 1 to child 0"),
    ("g 1 d", "granted read 3 from parent to child 0"),
    ("g 1 r 0", "granted data 3 from child 0 to parent"),
    ("g 0 r 0", "granted data 3 from child 0 to child 1"),
    ("g 2 d", "granted data 3 from parent to child 1"),
    ("h 3 0", "retired load 00020010 00000004"),
    ("h 3 0", "issued read 2"),
];

// Later in turns, and earlier in the witness.
#[test]
fn a_stale_load(rt: HostRuntime) -> Result<(), Fail> {
    const LINES: &[&str] = &[
        "op 3 0.1.2.1.1 00010004 load 00020000 00000005",
        "op 0 2.0.2.0.1 00010004 load 00020000 00000005",
    ];
    let alloc = rt.alloc();
    let mut turns = WORD_READ.to_vec(alloc)?;
    turns.extend_from_slice(WORD_STORED)?;
    let tree = tree("((LL)(LL))", [4, 1, 1, 1]).bytes(alloc)?;
    let text = traced(alloc, tree, word_and_flag(alloc)?, &turns)?;
    let load = line_number(&text, "op 3 1.1.4.1.3 0001000c load 00020000 00000005");
    let store = line_number(
        &text,
        "op 0 4.0.4.0.3 00010018 store 00020000 00000005 00000004",
    );
    assert_eq!(rt; missing(&text, LINES), "");
    assert!(rt; load.is_some() && load < store);
    Ok(())
}

// Whoever has read the flag can't read the old word any more.
#[test]
fn the_flag(rt: HostRuntime) -> Result<(), Fail> {
    const LINES: &[&str] = &[
        "op 0 8.0.8.0.4 0001001c store 00020010 00000000 00000004",
        "op 3 10.1.10.1.4 00010010 load 00020010 00000004",
    ];
    let alloc = rt.alloc();
    let mut turns = WORD_READ.to_vec(alloc)?;
    turns.extend_from_slice(WORD_STORED)?;
    turns.extend_from_slice(FLAG_ASKED)?;
    turns.extend_from_slice(FLAG_READ)?;
    let tree = tree("((LL)(LL))", [4, 1, 1, 1]).bytes(alloc)?;
    let text = traced(alloc, tree, word_and_flag(alloc)?, &turns)?;
    assert_eq!(rt; missing(&text, LINES), "");
    Ok(())
}

// Where a bus has room for one entry on its way down, the read waits until the erase is through.
#[test]
fn the_flag_behind_a_full_list(rt: HostRuntime) -> Result<(), Fail> {
    const FLAG_WAITS: &[Turn] = &[
        ("g 0 q 0", "busy queue down 2"),
        ("g 2 d", "granted erase 2 from parent to all"),
        ("g 0 q 0", "granted read 3 from child 0 to child 1"),
    ];
    let alloc = rt.alloc();
    let mut turns = WORD_READ.to_vec(alloc)?;
    turns.extend_from_slice(WORD_STORED)?;
    turns.extend_from_slice(FLAG_ASKED)?;
    turns.extend_from_slice(FLAG_WAITS)?;
    let tree = TreeFile {
        down: 1,
        ..tree("((LL)(LL))", [4, 1, 1, 1])
    };
    traced(alloc, tree.bytes(alloc)?, word_and_flag(alloc)?, &turns)?;
    Ok(())
}

// Four harts raise one word by one, a hundred times each.
#[test]
fn four_counters(rt: HostRuntime) -> Result<(), Fail> {
    const ROUND: &[&str] = &[
        "h 0 0", "h 1 0", "h 2 0", "h 3 0", "g 0 q 0", "g 0 q 1", "g 0 q 2", "g 0 q 3", "g 0 r 0",
        "g 0 r 1", "g 0 r 2", "g 0 r 3", "g 0 d",
    ];
    const LINES: &[&str] = &[
        "hart 0 exit 0 pc 0001001c done 304",
        "hart 1 exit 1 pc 0001001c done 304",
        "hart 2 exit 2 pc 0001001c done 304",
        "hart 3 exit 3 pc 0001001c done 304",
    ];
    let alloc = rt.alloc();
    let files = Files {
        tree: tree("(LLLL)", [2, 8, 1, 1]).bytes(alloc)?,
        image: add_to_one_word(alloc)?,
        schedule: schedule(alloc, ROUND, 5000)?,
    };
    let report = output(alloc, RUN, &files)?;
    assert_eq!(rt; missing(&report, LINES), "");
    assert!(rt; has_start(&report, "item 2 00020000 00000190 "));
    Ok(())
}

// Two items of data in a tree whose leaves have a place each.
fn load_two_items(alloc: Global) -> Result<Vec<u8>, Fail> {
    const CODE: &[u32] = &[
        0x000202b7, // lui x5,0x20
        0x0002a383, // lw x7,0(x5)
        0x0102a403, // lw x8,16(x5)
        0x00000073, // ecall
    ];
    image(alloc, CODE, &[5, 0, 0, 0, 6, 0, 0, 0], 32)
}

// The first item goes to the buffer, and has to leave before the next read.
#[test]
fn a_full_buffer(rt: HostRuntime) -> Result<(), Fail> {
    const TURNS: &[Turn] = &[
        ("h 0 0", "retired plain"),
        ("h 0 0", "issued read 1"),
        ("g 0 q 0", "granted read 1 from child 0 to child 1"),
        ("g 0 r 1", "granted data 1 from child 1 to child 0"),
        ("h 0 0", "retired load 00020000 00000005"),
        ("h 0 0", "busy buffer 0"),
        ("g 0 l 0 0", "granted inject 0 from child 0 to child 3"),
        ("h 0 0", "issued read 2"),
    ];
    let alloc = rt.alloc();
    let image = load_two_items(alloc)?;
    let text = traced(
        alloc,
        tree("(LLLL)", [1, 1, 1, 1]).bytes(alloc)?,
        image,
        TURNS,
    )?;
    assert_eq!(rt;
        missing(&text, &["op 0 2.0.1 00010004 load 00020000 00000005"]),
        ""
    );
    Ok(())
}

// With one leaf fewer there is nowhere to go.
#[test]
fn no_room(rt: HostRuntime) -> Result<(), Fail> {
    const TURNS: &[Turn] = &[
        ("h 0 0", "retired plain"),
        ("h 0 0", "issued read 1"),
        ("g 0 q 0", "granted read 1 from child 0 to child 1"),
        ("g 0 r 1", "granted data 1 from child 1 to child 0"),
        ("h 0 0", "retired load 00020000 00000005"),
        ("h 0 0", "busy buffer 0"),
        ("g 0 l 0 0", "busy room 0"),
    ];
    let alloc = rt.alloc();
    let image = load_two_items(alloc)?;
    traced(
        alloc,
        tree("(LLL)", [1, 1, 1, 1]).bytes(alloc)?,
        image,
        TURNS,
    )?;
    Ok(())
}

// The last copy of an item leaves every leaf, and is parked at a bus.
#[test]
fn the_last_copy(rt: HostRuntime) -> Result<(), Fail> {
    const TURNS: &[Turn] = &[
        ("h 0 0", "retired plain"),
        ("h 0 0", "issued read 1"),
        ("g 1 q 0", "granted read 1 from child 0 to parent"),
        ("g 0 q 0", "granted read 1 from child 0 to child 1"),
        ("g 2 d", "granted read 1 from parent to child 0"),
        ("g 2 r 0", "granted data 1 from child 0 to parent"),
        ("g 0 r 1", "granted data 1 from child 1 to child 0"),
        ("g 1 d", "granted data 1 from parent to child 0"),
        ("h 0 0", "retired load 00020000 00000005"),
        ("g 1 l 0 0", "granted inject 0 from child 0 to parking"),
        ("g 0 l 0 0", "granted inject 0 from child 0 to child 1"),
        ("g 2 d", "granted inject 0 from parent to parking"),
        ("g 0 l 1 0", "granted inject 0 from child 1 to child 0"),
        ("g 1 d", "granted inject 0 from parent to parking"),
        ("h 0 0", "retired plain"),
        ("h 0 0", "issued read 0"),
        ("g 1 q 0", "granted read 0 from child 0 to parking"),
        ("g 1 l 0 0", "granted out 1 from child 0 to parking"),
        ("g 1 d", "granted data 0 from parent to child 0"),
        ("h 0 0", "retired load 00010000 000202b7"),
        ("g 0 l 0 0", "granted out 1 from child 0 to gone"),
        ("h 1 0", "retired plain"),
        ("h 1 0", "retired load 00020000 00000005"),
        ("h 1 0", "retired plain"),
        ("h 1 0", "issued read 0"),
        ("g 2 l 0 0", "granted out 1 from child 0 to parking"),
        ("g 0 l 1 0", "granted inject 1 from child 1 to child 0"),
        ("g 1 d", "granted inject 1 from parent to parking"),
    ];
    const LINES: &[&str] = &[
        "turns 28 retired 7 granted 18 busy 0",
        "bus 0 read 1 data 1 erase 0 exclusive 0 out 1 inject 3",
        "bus 1 read 2 data 2 erase 0 exclusive 0 out 1 inject 3",
        "bus 2 read 1 data 1 erase 0 exclusive 0 out 1 inject 1",
        "item 0 00010000 000202b7 0002a383 00010337 00032403 leaf 0 way 0 SR",
        "item 1 00020000 00000005 00000000 00000000 00000000 bus 1 parking 0 --",
    ];
    const ORDER: &[&str] = &[
        "op 0 0.0.0.0.0 00010000 plain",
        "op 0 2.0.2.0.1 00010004 load 00020000 00000005",
        "op 1 3.1.3.0.0 00010000 plain",
        "op 1 3.1.3.0.1 00010004 load 00020000 00000005",
        "op 1 3.1.3.0.2 00010008 plain",
        "op 0 4.0.4.0.2 00010008 plain",
        "op 0 4.0.7.0.3 0001000c load 00010000 000202b7",
        "end",
    ];
    let alloc = rt.alloc();
    let tree = TreeFile {
        down: 2,
        requests: 2,
        replies: 2,
        ..tree("((L)(L))", [1, 1, 1, 1])
    };
    let image = load_two_words(alloc)?;
    let text = traced(alloc, tree.bytes(alloc)?, image, TURNS)?;
    assert_eq!(rt; missing(&text, LINES), "");
    assert!(rt; text.ends_with(&text_of(alloc, ORDER)?));
    Ok(())
}

// A copy that moves on its own comes to a bus where two leaves wait for it: each gets the data.
#[test]
fn an_inject_for_several_readers(rt: HostRuntime) -> Result<(), Fail> {
    const CODE: &[u32] = &[
        0x000202b7, // lui x5,0x20
        0x00051463, // bne x10,x0,8: only hart 0 loads the data
        0x0002a383, // lw x7,0(x5)
        0x00010337, // lui x6,0x10
        0x00032403, // lw x8,0(x6)
    ];
    const TURNS: &[Turn] = &[
        ("h 0 0", "retired plain"),
        ("h 0 0", "retired plain"),
        ("h 0 0", "issued read 2"),
        ("h 1 0", "retired plain"),
        ("h 1 0", "retired plain"),
        ("h 1 0", "retired plain"),
        ("h 1 0", "issued read 0"),
        ("h 2 0", "retired plain"),
        ("h 2 0", "retired plain"),
        ("h 2 0", "retired plain"),
        ("h 2 0", "issued read 0"),
        ("g 1 l 0 0", "granted inject 0 from child 0 to parking"),
        ("g 2 q 0", "granted read 0 from child 0 to parent"),
        ("g 2 q 1", "granted read 0 from child 1 to joined"),
        ("g 0 l 0 0", "granted inject 0 from child 0 to child 1"),
        ("g 2 d", "granted inject 0 from parent to readers"),
        ("h 1 0", "retired load 00010000 000202b7"),
        ("h 2 0", "retired load 00010000 000202b7"),
    ];
    const LINES: &[&str] = &[
        "op 1 1.1.3.0.3 00010010 load 00010000 000202b7",
        "op 2 1.1.3.1.3 00010010 load 00010000 000202b7",
    ];
    let alloc = rt.alloc();
    let tree = tree("((L)(LL))", [1, 1, 1, 1]).bytes(alloc)?;
    let text = traced(alloc, tree, image(alloc, CODE, &[5], 16)?, TURNS)?;
    assert_eq!(rt; missing(&text, LINES), "");
    Ok(())
}
