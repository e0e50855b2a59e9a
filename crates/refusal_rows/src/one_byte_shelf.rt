//! Files that come a byte at a time: what is put out is the same.

use crate::of_ddm_outside::{Failed, MemoryShelf, Shelf};
use asked_commands::answers::{ask_with, output, shelf, sink};
use asked_commands::files::{Files, load_and_exit, schedule, tree};
use std::test::Fail;

/// A shelf that gives one byte of a file in a read.
#[derive(Drop)]
struct OneByteShelf {
    shelf: MemoryShelf,
}

impl Shelf for OneByteShelf {
    ghost use Rattle.refusal_rows.specs.DdmOutside.MemoryShelf.{told_of, count_of};

    ghost told = { λ one. told_of one.shelf };

    ghost faults = { λ one. count_of one.shelf };

    #[tactic(auto, using(crate::proofs::Parts::front_part))]
    fn read(&mut self, name: &str, at: u64, into: &mut [u8]) -> Result<usize, Failed> {
        self.shelf.read(name, at, &mut into[..1])
    }
}

#[test]
fn every_command(rt: HostRuntime) -> Result<(), Fail> {
    let alloc = rt.alloc();
    let files = Files {
        tree: tree("(LL)", [4, 64, 4, 4]).bytes(alloc)?,
        image: load_and_exit(alloc)?,
        schedule: schedule(alloc, &["h 0 0", "h 0 0", "g 0 q 0", "g 0 r 1", "h 0 0"], 1)?,
    };
    let commands: [&[&str]; 8] = [
        &["run", "image", "tree", "schedule"],
        &["trace", "image", "tree", "schedule"],
        &["seed", "image", "tree", "42", "500"],
        &["schedule", "tree", "42", "500"],
        &["make", "42", "2", "tree"],
        &["unjam", "image", "tree", "schedule"],
        &["save", "image", "tree", "schedule"],
        &["outcomes", "image", "tree", "1", "3", "200"],
    ];
    for words in commands {
        let mut bytes = OneByteShelf {
            shelf: shelf(alloc, &files, &[])?,
        };
        let answer = ask_with(
            alloc,
            words,
            &mut bytes,
            sink(alloc, &[])?,
            sink(alloc, &[])?,
        )?;
        assert!(rt; answer.is_done(), "{words:?}");
        assert_eq!(rt;
            answer.out.bytes(),
            output(alloc, words, &files)?.as_slice()
        );
    }
    Ok(())
}
