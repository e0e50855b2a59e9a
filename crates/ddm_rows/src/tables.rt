//! Tables that are put together.
ghost use Rattle.std.specs.Prelude.{◌≡◌, All, IfOk};

use crate::of_ddm_outside::{MemoryShelf, NamedFile};
use asked_commands::answers::{Answer, ask_with, named, output, sink};
use asked_commands::code;
use asked_commands::files::{Files, store_and_load, tree};
use std::alloc::Global;
use std::test::Fail;

const TWO: &[&str] = &["join", "a", "b"];

// Seeds 0 to 4, and seeds 5 to 9.
const LOWER: &[u8] =
    b"outcomes 2 runs 5\noutcome 3 1 hart 0 exit 1 out -\noutcome 2 0 hart 0 exit 0 out 48\nend\n";

const UPPER: &[u8] =
    b"outcomes 3 runs 5\noutcome 2 5 hart 0 exit 0 out 48\noutcome 2 7 hart 0 running out -\noutcome 1 6 hart 0 exit 0 out -\nend\n";

// A table whose runs are as many as can be counted.
const MOST: &[u8] =
    b"outcomes 1 runs 18446744073709551615\noutcome 18446744073709551615 0 x\nend\n";

const SURVEY: &[u8] = b"survey 1 runs 1\noutcome 1 3 halted hart 0 exit 0 out -\nend\n";

fn two_files(alloc: Global, first: &[u8], second: &[u8]) -> Result<Vec<NamedFile>, Fail>
    ensures { IfOk result (λ files. All (λ file. file.faults ≡ 0) files.items) }
{
    let mut files = Vec::new(alloc);
    files.push(named(alloc, "a", first)?)?;
    files.push(named(alloc, "b", second)?)?;
    Ok(files)
}

/// What comes of these words over two files, where the reads and the writes of these numbers fail.
fn joined(
    alloc: Global,
    words: &[&str],
    tables: [&[u8]; 2],
    reads: &[u64],
    writes: &[u64],
) -> Result<Answer, Fail> {
    let [first, second] = tables;
    let mut shelf = MemoryShelf::new(two_files(alloc, first, second)?, reads.to_vec(alloc)?);
    ask_with(
        alloc,
        words,
        &mut shelf,
        sink(alloc, writes)?,
        sink(alloc, &[])?,
    )
}

// An outcome of both tables has the runs of both and the smaller seed. It is more frequent now than what was first.
#[test]
fn two_tables(rt: HostRuntime) -> Result<(), Fail> {
    let alloc = rt.alloc();
    let lines = "outcomes 4 runs 10\n\
        outcome 4 0 hart 0 exit 0 out 48\n\
        outcome 3 1 hart 0 exit 1 out -\n\
        outcome 2 7 hart 0 running out -\n\
        outcome 1 6 hart 0 exit 0 out -\n\
        end\n";
    for tables in [[LOWER, UPPER], [UPPER, LOWER]] {
        let answer = joined(alloc, TWO, tables, &[], &[])?;
        assert!(rt; answer.is_done());
        assert_eq!(rt; answer.out.bytes(), lines.as_bytes());
    }
    Ok(())
}

// A file that is named more than once is counted as often.
#[test]
fn one_file_three_times(rt: HostRuntime) -> Result<(), Fail> {
    const THREE: &[&str] = &["join", "b", "b", "b"];
    let alloc = rt.alloc();
    let answer = joined(alloc, THREE, [LOWER, SURVEY], &[], &[])?;
    assert!(rt; answer.is_done());
    assert_eq!(rt;
        answer.out.bytes(),
        b"survey 1 runs 3\noutcome 3 3 halted hart 0 exit 0 out -\nend\n".as_slice()
    );
    Ok(())
}

// The tables of seeds 0 to 2 and of 3 to 7 are put together as that of 0 to 7.
#[test]
fn ranges_that_follow_one_another(rt: HostRuntime) -> Result<(), Fail> {
    const CALLS: &[(&[&str], &[&str], &[&str])] = &[
        (
            &["outcomes", "image", "tree", "0", "3", "40"],
            &["outcomes", "image", "tree", "3", "5", "40"],
            &["outcomes", "image", "tree", "0", "8", "40"],
        ),
        (
            &["survey", "image", "tree", "skewed", "0", "3", "9"],
            &["survey", "image", "tree", "skewed", "3", "5", "9"],
            &["survey", "image", "tree", "skewed", "0", "8", "9"],
        ),
    ];
    let alloc = rt.alloc();
    let files = Files {
        tree: tree("(LL)", [4, 1, 1, 1]).bytes(alloc)?,
        image: store_and_load(alloc)?,
        schedule: Vec::new(alloc),
    };
    for (first, second, whole) in CALLS {
        let first = output(alloc, first, &files)?;
        let second = output(alloc, second, &files)?;
        let answer = joined(alloc, TWO, [&first, &second], &[], &[])?;
        assert!(rt; answer.is_done());
        assert_eq!(rt;
            answer.out.bytes(),
            output(alloc, whole, &files)?.as_slice()
        );
    }
    Ok(())
}

// The first fault ends the command, and names the file by its number and its line.
#[test]
fn refused_tables(rt: HostRuntime) -> Result<(), Fail> {
    const REFUSED: &[(&[u8], &[u8], &str)] = &[
        (b"", UPPER, "ddm: table 1 line 1: no end"),
        (
            LOWER,
            b"outcomes 1 run 1\nend\n",
            "ddm: table 2 line 1: bad line",
        ),
        (
            LOWER,
            b"outcomes 2 runs 2\noutcome 3 1 x\nend\n",
            "ddm: table 2 line 2: bad line",
        ),
        (
            LOWER,
            b"outcomes 1 runs 1\noutcome 0 1 x\nend\n",
            "ddm: table 2 line 2: bad line",
        ),
        (
            b"outcomes 1 runs 2\noutcome 2 1 x\nen",
            b"",
            "ddm: table 1 line 3: no end",
        ),
        (
            LOWER,
            b"outcomes 0 runs 0\nend\nend\n",
            "ddm: table 2 line 3: after end",
        ),
        (LOWER, SURVEY, "ddm: table 2: other kind"),
        (SURVEY, LOWER, "ddm: table 2: other kind"),
        (MOST, LOWER, "ddm: table 2: too many runs"),
    ];
    let alloc = rt.alloc();
    for (first, second, line) in REFUSED {
        let answer = joined(alloc, TWO, [*first, *second], &[], &[])?;
        assert!(rt; answer.is_refusal(15, line), "{line}");
    }
    Ok(())
}

// Each table is read twice: all of its bytes, and then none behind them.
#[test]
fn a_read_or_a_write_fails(rt: HostRuntime) -> Result<(), Fail> {
    let alloc = rt.alloc();
    for number in 0..4 {
        let line = format!(in alloc; "ddm: cannot read table {}", number / 2 + 1)?;
        let answer = joined(alloc, TWO, [LOWER, UPPER], &[number], &[])?;
        assert!(rt; answer.is_refusal(6, line.as_str()), "read {number}");
    }
    let answer = joined(alloc, TWO, [LOWER, UPPER], &[], &[1])?;
    assert_eq!(rt; code(&answer.status), 7);
    assert_eq!(rt; answer.out.bytes(), b"outcomes 4".as_slice());
    Ok(())
}

// As many tables as a command may name, and one more.
#[test]
fn many_tables(rt: HostRuntime) -> Result<(), Fail> {
    let alloc = rt.alloc();
    let mut words = Vec::new(alloc);
    words.push("join")?;
    for number in 0..256 {
        let _ = number;
        words.push("a")?;
    }
    let answer = joined(
        alloc,
        &words,
        [b"outcomes 1 runs 1\noutcome 1 9 x\nend\n", b""],
        &[],
        &[],
    )?;
    assert!(rt; answer.is_done());
    assert_eq!(rt;
        answer.out.bytes(),
        b"outcomes 1 runs 256\noutcome 256 9 x\nend\n".as_slice()
    );
    words.push("a")?;
    let answer = joined(alloc, &words, [LOWER, UPPER], &[], &[])?;
    assert!(rt; answer.is_refusal(2, "ddm: usage: word 257"));
    Ok(())
}
