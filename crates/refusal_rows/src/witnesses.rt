//! Witnesses that are judged by the flat machine alone.
ghost use Rattle.std.specs.Prelude.{◌≡◌, All, IfOk};

use crate::of_ddm_outside::{MemoryShelf, NamedFile};
use asked_commands::answers::{Answer, ask_with, named, sink};
use asked_commands::files::{one_leaf, store_and_load, text_of};
use std::alloc::Global;
use std::test::Fail;

/// The operations of `store_and_load`.
const OPERATIONS: &[&str] = &[
    "op 0 0.0.0 00010000 plain",
    "op 0 0.0.1 00010004 plain",
    "op 0 0.0.2 00010008 store 00020000 00000000 00000007",
    "op 0 0.0.3 0001000c load 00020000 00000007",
    "op 0 0.0.4 00010010 plain",
    "op 0 0.0.5 00010014 plain",
];

/// The load before the store.
const EXCHANGED: &[&str] = &[
    "op 0 0.0.0 00010000 plain",
    "op 0 0.0.1 00010004 plain",
    "op 0 0.0.3 0001000c load 00020000 00000007",
    "op 0 0.0.2 00010008 store 00020000 00000000 00000007",
];

fn files_with(alloc: Global, witness: &[u8]) -> Result<Vec<NamedFile>, Fail>
    ensures { IfOk result (λ files. All (λ file. file.faults ≡ 0) files.items) }
{
    let mut files = Vec::new(alloc);
    files.push(named(alloc, "tree", &one_leaf().bytes(alloc)?)?)?;
    files.push(named(alloc, "image", &store_and_load(alloc)?)?)?;
    files.push(named(alloc, "witness", witness)?)?;
    Ok(files)
}

/// What is said of a witness of `store_and_load` on one leaf.
fn judged(alloc: Global, witness: &[u8]) -> Result<Answer, Fail> {
    let mut shelf = MemoryShelf::new(files_with(alloc, witness)?, Vec::new(alloc));
    let words = ["check", "image", "tree", "witness"];
    ask_with(
        alloc,
        &words,
        &mut shelf,
        sink(alloc, &[])?,
        sink(alloc, &[])?,
    )
}

#[test]
fn accepted(rt: HostRuntime) -> Result<(), Fail> {
    let alloc = rt.alloc();
    let answer = judged(alloc, &text_of(alloc, OPERATIONS)?)?;
    assert!(rt; answer.is_done());
    assert_eq!(rt; answer.out.bytes(), b"legal 6\n".as_slice());
    let answer = judged(alloc, b"")?;
    assert!(rt; answer.is_done());
    assert_eq!(rt; answer.out.bytes(), b"legal 0\n".as_slice());
    Ok(())
}

#[test]
fn refused(rt: HostRuntime) -> Result<(), Fail> {
    let alloc = rt.alloc();
    let answer = judged(alloc, &text_of(alloc, EXCHANGED)?)?;
    assert!(rt; answer.is_refusal(10, "ddm: witness line 3: not legal"));
    let mut cut = text_of(alloc, OPERATIONS)?;
    let _ = cut.pop();
    let answer = judged(alloc, &cut)?;
    assert!(rt; answer.is_refusal(10, "ddm: witness line 6: bad line"));
    Ok(())
}
