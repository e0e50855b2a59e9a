//! Lists, buffers and parkings of one place each: whatever the schedule, the flat machine makes the operations of the witness, each
//! with its effect.

use crate::of_ddm_types::Start;
use crate::of_elf_load::load;
use crate::of_witness_check::check;
use asked_commands::answers::output;
use asked_commands::files::{Files, TreeFile, load_two_words, tree};
use std::alloc::Global;
use std::test::Fail;

/// The harts of the tree of this test: two, without stacks.
const TWO_HARTS: Start = Start {
    entry: 0x1_0000,
    harts: 2,
    stack_base: 0x3_0000,
    stack_bytes: 0,
};

/// The lines of a report that are operations.
fn operations(alloc: Global, report: &[u8]) -> Result<Vec<u8>, Fail> {
    let mut text = Vec::new(alloc);
    for line in report.split(|byte| *byte == b'\n') {
        if line.starts_with(b"op ") {
            text.extend_from_slice(line)?;
            text.push(b'\n')?;
        }
    }
    Ok(text)
}

#[test]
fn many_seeds(rt: HostRuntime) -> Result<(), Fail> {
    let alloc = rt.alloc();
    let tree = TreeFile {
        down: 1,
        requests: 1,
        replies: 1,
        ..tree("((L)(L))", [1, 1, 1, 1])
    };
    let files = Files {
        tree: tree.bytes(alloc)?,
        image: load_two_words(alloc)?,
        schedule: Vec::new(alloc),
    };
    let image = load(alloc, &files.image, 16)?;
    for seed in 1..21 {
        let seed = format!(in alloc; "{seed}")?;
        let words = ["seed", "image", "tree", seed.as_str(), "5000"];
        let witness = operations(alloc, &output(alloc, &words, &files)?)?;
        let legal = check(alloc, &image, TWO_HARTS, 16, &witness)?;
        assert_eq!(rt;
            legal as usize,
            witness.split(|byte| *byte == b'\n').count() - 1,
            "seed {seed}"
        );
    }
    Ok(())
}
