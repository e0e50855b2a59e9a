//! What a recorded run is measured by.

use asked_commands::answers::output;
use asked_commands::files::{Files, store_and_load, tree};
use std::test::Fail;

// Both harts store 7 to one word and read it back: hart 0 has it, and hart 1 asks for it. The numbers are those of an
// independent simulator.
#[test]
fn measured_run(rt: HostRuntime) -> Result<(), Fail> {
    const WORDS: &[&str] = &["measure", "image", "tree", "even", "100", "2000"];
    let alloc = rt.alloc();
    let files = Files {
        tree: tree("((L)(L))", [2, 1, 1, 1]).bytes(alloc)?,
        image: store_and_load(alloc)?,
        schedule: Vec::new(alloc),
    };
    let lines = "measure 1\n\
        end halted\n\
        turns 26 drawn 380 retired 12 issued 1 granted 11 halted 2 busy 0\n\
        hart 0 exit 7 pc 00010018 done 6 loads 1 stores 1 amos 0 failed 0 reads 0 erases 0 busy 0\n\
        hart 1 exit 7 pc 00010018 done 6 loads 1 stores 1 amos 0 failed 0 reads 1 erases 0 busy 0\n\
        bus 0 read 1 data 1 erase 1 exclusive 1 out 0 inject 0 busy 0\n\
        bus 1 read 1 data 1 erase 1 exclusive 0 out 0 inject 0 busy 0\n\
        bus 2 read 1 data 1 erase 1 exclusive 1 out 0 inject 0 busy 0\n\
        most bus 0 down 1 requests 0 replies 0 parking 0\n\
        most bus 1 down 1 requests 0 replies 1 parking 0\n\
        most bus 2 down 1 requests 1 replies 0 parking 0\n\
        most leaf 0 replies 1 buffer 0\n\
        most leaf 1 replies 0 buffer 0\n\
        item 2 00020000 reads 1 erases 0 injects 0\n\
        end\n";
    assert_eq!(rt; output(alloc, WORDS, &files)?.as_slice(), lines.as_bytes());
    Ok(())
}
