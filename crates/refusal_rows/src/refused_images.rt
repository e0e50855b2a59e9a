//! Images that are refused, by themselves or with their tree, and images that are just accepted.

use asked_commands::answers::{Answer, RUN, ask, has_start, missing, traced};
use asked_commands::files::{
    DATA, Files, TreeFile, WRITABLE, changed, code_segment, image_of, load_and_exit, one_leaf,
    segment, store_and_load, tree,
};
use std::alloc::Global;
use std::test::Fail;

// What comes of this image on one leaf, before any turn.
fn answer_to(alloc: Global, image: &[u8]) -> Result<Answer, Fail> {
    let files = Files {
        tree: one_leaf().bytes(alloc)?,
        image: image.to_vec(alloc)?,
        schedule: b"end\n".to_vec(alloc)?,
    };
    ask(alloc, RUN, &files)
}

// The name of the refusal of the first bytes of `store_and_load`.
fn cut_name(length: usize) -> &'static str {
    if length < 52 {
        "not elf"
    } else if length < 84 {
        "header outside 0"
    } else if length < 116 {
        "header outside 1"
    } else {
        "segment outside 0"
    }
}

#[test]
fn cut_images(rt: HostRuntime) -> Result<(), Fail> {
    let alloc = rt.alloc();
    let whole = store_and_load(alloc)?;
    assert_eq!(rt; whole.len(), 144);
    for length in 0..144_usize {
        let line = format!(in alloc; "ddm: image: {}", cut_name(length))?;
        let answer = answer_to(alloc, &whole[..length])?;
        assert!(rt; answer.is_refusal(3, line.as_str()), "{length} bytes");
    }
    Ok(())
}

// The header has 52 bytes, and each program header 32: the code's at 52, the data's at 84.
#[test]
fn images_that_contradict_themselves(rt: HostRuntime) -> Result<(), Fail> {
    let alloc = rt.alloc();
    let changes: [(usize, &[u8], &str); 9] = [
        (44, &[65], "too many headers 65"),
        (42, &[31], "header outside 0"),
        (28, &[0xff, 0xff, 0xff, 0xff], "header outside 0"),
        (36, &[1], "compressed"),
        (92, &[0x1b, 0, 1, 0], "segments overlap 0 1"),
        (84, &[2], "dynamic 1"),
        (24, &[2, 0, 1, 0], "bad entry 65538"),
        (4, &[2], "wrong class"),
        (18, &[62], "wrong machine"),
    ];
    let whole = store_and_load(alloc)?;
    for (place, bytes, name) in changes {
        let line = format!(in alloc; "ddm: image: {name}")?;
        let answer = answer_to(alloc, &changed(alloc, &whole, place, bytes)?)?;
        assert!(rt; answer.is_refusal(3, line.as_str()), "{line}");
    }
    Ok(())
}

// The class is judged before the machine.
#[test]
fn two_changes_of_an_image(rt: HostRuntime) -> Result<(), Fail> {
    let alloc = rt.alloc();
    let whole = store_and_load(alloc)?;
    let other = changed(alloc, &changed(alloc, &whole, 18, &[62])?, 4, &[2])?;
    assert!(rt; answer_to(alloc, &other)?.is_refusal(3, "ddm: image: wrong class"));
    let skipped = changed(alloc, &changed(alloc, &whole, 52, &[6])?, 84, &[6])?;
    assert!(rt; answer_to(alloc, &skipped)?.is_refusal(3, "ddm: image: no segments"));
    Ok(())
}

#[test]
fn images_and_trees_that_make_no_machine(rt: HostRuntime) -> Result<(), Fail> {
    let alloc = rt.alloc();
    let one_place = Files {
        tree: tree("(L)", [1, 1, 1, 1]).bytes(alloc)?,
        image: load_and_exit(alloc)?,
        schedule: b"end\n".to_vec(alloc)?,
    };
    assert!(rt; ask(alloc, RUN, &one_place)?.is_refusal(3, "ddm: image: no place 1"));
    let stack_on_code = TreeFile {
        stack_base: 65_536,
        ..one_leaf()
    };
    let overlap = Files {
        tree: stack_on_code.bytes(alloc)?,
        image: store_and_load(alloc)?,
        schedule: b"end\n".to_vec(alloc)?,
    };
    assert!(rt; ask(alloc, RUN, &overlap)?.is_refusal(3, "ddm: image: stack overlap 0 0"));
    Ok(())
}

// One instruction, and so much memory at an address.
fn code_and_memory(alloc: Global, vaddr: u32, memory: u32) -> Result<Vec<u8>, Fail> {
    let segments = [
        code_segment(alloc, &[0x00000073])?,
        segment(alloc, vaddr, WRITABLE, &[], memory)?,
    ];
    image_of(alloc, &segments)
}

#[test]
fn a_segment_at_the_end_of_memory(rt: HostRuntime) -> Result<(), Fail> {
    let alloc = rt.alloc();
    let last = answer_to(alloc, &code_and_memory(alloc, 0xffff_fff0, 16)?)?;
    assert!(rt; last.is_done());
    assert!(rt; has_start(last.out.bytes(), "item 2 fffffff0 "));
    let past = answer_to(alloc, &code_and_memory(alloc, 0xffff_fff0, 17)?)?;
    assert!(rt; past.is_refusal(3, "ddm: image: address wraps 1"));
    Ok(())
}

// Nothing stands at 0x20000, so item 1 is the stack's.
#[test]
fn a_segment_without_memory(rt: HostRuntime) -> Result<(), Fail> {
    let alloc = rt.alloc();
    let left_out = answer_to(alloc, &code_and_memory(alloc, DATA, 0)?)?;
    assert!(rt; left_out.is_done());
    assert!(rt; has_start(left_out.out.bytes(), "item 1 00030000 "));
    Ok(())
}

// Two segments in one item, of which the first is writable: so is all of the item.
#[test]
fn segments_that_share_an_item(rt: HostRuntime) -> Result<(), Fail> {
    let alloc = rt.alloc();
    let code = [
        0x000202b7, // lui x5,0x20
        0x00700313, // addi x6,x0,7
        0x0062a423, // sw x6,8(x5)
    ];
    let segments = [
        code_segment(alloc, &code)?,
        segment(alloc, DATA, WRITABLE, &[], 4)?,
        segment(alloc, DATA + 8, 4, &[], 4)?,
    ];
    let turns = [
        ("h 0 0", "retired plain"),
        ("h 0 0", "retired plain"),
        ("h 0 0", "retired store 00020008 00000000 00000007"),
    ];
    let tree = tree("(L)", [4, 1, 1, 1]).bytes(alloc)?;
    let text = traced(alloc, tree, image_of(alloc, &segments)?, &turns)?;
    let item = "item 1 00020000 00000000 00000000 00000007 00000000 leaf 0 way 1 E";
    assert_eq!(rt; missing(&text, &[item]), "");
    Ok(())
}

// As a linker makes it: two headers that load nothing, then the code with the headers themselves at its front, then data of which the
// file has 32 bytes.
fn linked(alloc: Global) -> Result<Vec<u8>, Fail> {
    let first = [
        0x000102b7, // lui x5,0x10
        0x0002a303, // lw x6,0(x5)
        0x0062a023, // sw x6,0(x5)
    ];
    let mut code = first.to_vec(alloc)?;
    code.resize(256, 0)?;
    let segments = [
        segment(alloc, 0, 4, &[], 0)?,
        segment(alloc, 0, 6, &[], 0)?,
        code_segment(alloc, &code)?,
        segment(alloc, 0x11400, WRITABLE, &[1, 2, 3, 4, 5, 6, 7, 8], 0x120)?,
    ];
    let mut file = image_of(alloc, &segments)?;
    let changes: [(usize, &[u8]); 4] = [
        (52, &[0x03, 0, 0, 0x70]),
        (84, &[0x51, 0xe5, 0x74, 0x64]),
        (120, &[0, 0, 0, 0]),
        (24, &[180, 0, 1, 0]),
    ];
    for (place, bytes) in changes {
        file = changed(alloc, &file, place, bytes)?;
    }
    Ok(file)
}

#[test]
fn a_linkers_image(rt: HostRuntime) -> Result<(), Fail> {
    let alloc = rt.alloc();
    let tree = TreeFile {
        stack_base: 0x8000_0000,
        stack_bytes: 4096,
        ..tree("(LL)", [2, 256, 4, 4])
    };
    let turns = [
        ("h 0 0", "retired plain"),
        ("h 0 0", "retired load 00010000 464c457f"),
        ("h 0 0", "halted nostore 00010000"),
    ];
    let text = traced(alloc, tree.bytes(alloc)?, linked(alloc)?, &turns)?;
    assert!(rt;
        has_start(
            &text,
            "item 64 00011400 00000001 00000002 00000003 00000004 "
        )
    );
    assert!(rt; has_start(&text, "item 81 00011510 "));
    assert!(rt; has_start(&text, "item 82 80000000 "));
    assert!(rt; has_start(&text, "item 593 80001ff0 "));
    assert!(rt; !has_start(&text, "item 594 "));
    Ok(())
}
