//! Words that are no command: the first at fault is named, or where one is missing. And what the program says of itself.

use asked_commands::answers::{ask, has_start, output};
use asked_commands::files::Files;
use std::alloc::Global;
use std::test::Fail;

/// Words that are no command, and the number of the word that is at fault or missing.
type WordsAtFault = &'static [(&'static [&'static str], u32)];

// Of those that make one run, read one file or make an image.
const OF_RUNS: WordsAtFault = &[
    (&[], 0),
    (&["walk"], 0),
    (&["run", "a", "b"], 3),
    (&["run", "a", "b", "c", "d"], 4),
    (&["trace", "a", "b"], 3),
    (&["trace", "a", "b", "c", "d"], 4),
    (&["seed", "i", "t"], 3),
    (&["seed", "i", "t", "01", "5"], 3),
    (&["seed", "i", "t", "18446744073709551616", "5"], 3),
    (&["seed", "i", "t", "1", "1048577"], 4),
    (&["seed", "i", "t", "1", "5", "more"], 5),
    (&["schedule", "t", "-1", "1"], 2),
    (&["schedule", "t", "1"], 3),
    (&["schedule", "t", "1", "1048577"], 3),
    (&["schedule", "t", "1", "1", "more"], 4),
    (&["make", "18446744073709551616", "1", "t"], 1),
    (&["make", "1", "0", "t"], 2),
    (&["make", "1", "50001", "t"], 2),
    (&["make", "1", "1"], 3),
    (&["make", "1", "1", "t", "more"], 4),
    (&["unjam", "a", "b"], 3),
    (&["unjam", "a", "b", "c", "d"], 4),
    (&["save", "a", "b"], 3),
    (&["save", "a", "b", "c", "d"], 4),
    (&["page", "a", "b"], 3),
    (&["page", "a", "b", "c", "d"], 4),
    (&["resume", "a", "b", "c"], 4),
    (&["resume", "a", "b", "c", "d", "e"], 5),
    (&["assemble", "l"], 2),
    (&["assemble", "l", "t", "0,0"], 3),
    (&["assemble", "l", "t", "1,0", "more"], 4),
    (&["assemble", "l", "t", "all", "64"], 4),
    (&["assemble", "l", "t", "all", "1,0", "more"], 5),
    (&["RUN", "a", "b", "c"], 0),
];

// Of those that make the runs of many seeds, or a recorded run.
const OF_SEEDS: WordsAtFault = &[
    (&["outcomes", "i", "t", "0", "1"], 5),
    (&["outcomes", "i", "t", "0", "0", "1"], 4),
    (&["outcomes", "i", "t", "0", "1000001", "1"], 4),
    (&["outcomes", "i", "t", "18446744073709551616", "1", "1"], 3),
    (&["outcomes", "i", "t", "0", "1", "1048577"], 5),
    (&["outcomes", "i", "t", "0", "1", "1", "more"], 6),
    (&["record", "i", "t", "odd", "1", "1"], 3),
    (
        &["record", "i", "t", "even", "18446744073709551616", "1"],
        4,
    ),
    (&["record", "i", "t", "even", "1", "1048577"], 5),
    (&["record", "i", "t", "skewed", "1"], 5),
    (&["record", "i", "t", "skewed", "1", "1", "more"], 6),
    (&["measure", "i", "t", "odd", "1", "1"], 3),
    (
        &["measure", "i", "t", "even", "18446744073709551616", "1"],
        4,
    ),
    (&["measure", "i", "t", "even", "1", "1000000001"], 5),
    (&["measure", "i", "t", "skewed", "1"], 5),
    (&["measure", "i", "t", "skewed", "1", "1", "more"], 6),
    (&["survey", "i", "t", "odd", "1", "1", "1"], 3),
    (
        &["survey", "i", "t", "even", "18446744073709551616", "1", "1"],
        4,
    ),
    (&["survey", "i", "t", "even", "0", "0", "1"], 5),
    (&["survey", "i", "t", "even", "0", "1000001", "1"], 5),
    (
        &["survey", "i", "t", "even", "18446744073709551615", "2", "1"],
        5,
    ),
    (&["survey", "i", "t", "even", "0", "1", "1048577"], 6),
    (&["survey", "i", "t", "skewed", "0", "1"], 6),
    (&["survey", "i", "t", "skewed", "0", "1", "1", "more"], 7),
    (&["join"], 1),
    (&["join", "a"], 2),
];

// Of those that ask what the program says of itself.
const OF_ITSELF: WordsAtFault = &[
    (&["help", "walk"], 1),
    (&["help", "run", "more"], 2),
    (&["help", "help", "more"], 1),
    (&["help", "faults", "more"], 1),
    (&["help", "--help"], 1),
    (&["help", "-h"], 1),
    (&["--help", "run"], 1),
    (&["--help", "--help"], 1),
    (&["--version", "--help"], 1),
    (&["-h", "run"], 0),
    (&["-h", "-h"], 0),
    (&["walk", "--help"], 0),
    (&["faults", "--help"], 0),
    (&["faults"], 0),
    (&["run", "--help", "b"], 3),
    (&["run", "a", "--help"], 3),
    (&["seed", "--help", "-h"], 3),
    (&["schedule", "-h", "t"], 2),
    (&["make", "--help", "1"], 1),
    (&["run", "help"], 2),
];

// The line of the first of these that isn't refused for its word, or an empty one.
fn not_refused(alloc: Global, commands: WordsAtFault) -> Result<String, Fail> {
    let no_files = Files {
        tree: Vec::new(alloc),
        image: Vec::new(alloc),
        schedule: Vec::new(alloc),
    };
    for (words, place) in commands {
        let line = format!(in alloc; "ddm: usage: word {place}")?;
        if !ask(alloc, words, &no_files)?.is_refusal(2, line.as_str()) {
            return Ok(line);
        }
    }
    Ok(String::new(alloc))
}

#[test]
fn words_at_fault(rt: HostRuntime) -> Result<(), Fail> {
    let alloc = rt.alloc();
    for commands in [OF_RUNS, OF_SEEDS, OF_ITSELF] {
        let line = not_refused(alloc, commands)?;
        assert!(rt; line.as_str().is_empty(), "{line}");
    }
    Ok(())
}

// Whether no line of a text has more than 79 bytes.
fn is_narrow(text: &[u8]) -> bool {
    text.split(|byte| *byte == b'\n')
        .all(|line| line.len() <= 79)
}

#[test]
fn of_itself(rt: HostRuntime) -> Result<(), Fail> {
    let alloc = rt.alloc();
    let no_files = Files {
        tree: Vec::new(alloc),
        image: Vec::new(alloc),
        schedule: Vec::new(alloc),
    };
    let version = output(alloc, &["--version"], &no_files)?;
    assert_eq!(rt; version.as_slice(), b"ddm 1\n".as_slice());
    let help = output(alloc, &["--help"], &no_files)?;
    let same: [&[&str]; 2] = [&["-h"], &["help"]];
    for words in same {
        assert!(rt; output(alloc, words, &no_files)? == help);
    }
    for name in [
        "run", "trace", "seed", "schedule", "make", "check", "unjam", "save", "resume", "outcomes",
        "record", "measure", "survey", "join", "page", "assemble",
    ] {
        let said = output(alloc, &["help", name], &no_files)?;
        let line = format!(in alloc; "ddm {name} ")?;
        assert!(rt; said.starts_with(line.as_bytes()), "{name}");
        assert!(rt; !said.starts_with(&help), "{name}");
        assert!(rt; is_narrow(&said), "{name}");
        assert!(rt;
            output(alloc, &[name, "--help"], &no_files)? == said,
            "{name}"
        );
        assert!(rt; output(alloc, &[name, "-h"], &no_files)? == said, "{name}");
    }
    let asking = output(alloc, &["help", "help"], &no_files)?;
    assert!(rt; asking.starts_with(b"ddm --help, ddm -h, ddm help "));
    assert!(rt; is_narrow(&asking));
    Ok(())
}

// How the line of each fault begins, after the number that a command ends with.
const FAULTS: &[&str] = &[
    " 2 usage: word N ",
    " 3 image: too long ",
    " 3 image: not elf ",
    " 3 image: wrong class ",
    " 3 image: not executable ",
    " 3 image: wrong machine ",
    " 3 image: compressed ",
    " 3 image: hard float ",
    " 3 image: embedded ",
    " 3 image: too many headers N ",
    " 3 image: header outside N ",
    " 3 image: dynamic N ",
    " 3 image: segment outside N ",
    " 3 image: address wraps N ",
    " 3 image: segments overlap N M ",
    " 3 image: no segments ",
    " 3 image: too much code N ",
    " 3 image: too many items N ",
    " 3 image: bad entry N ",
    " 3 image: stack overlap H N ",
    " 3 image: no place N ",
    " 4 tree: too long ",
    " 4 tree: not toml ",
    " 4 tree: unknown key KEY ",
    " 4 tree: missing key KEY ",
    " 4 tree: wrong type KEY ",
    " 4 tree: bad shape N ",
    " 4 tree: uneven ",
    " 4 tree: too deep ",
    " 4 tree: too wide ",
    " 4 tree: too many leaves ",
    " 4 tree: out of range KEY ",
    " 5 schedule line N: bad turn ",
    " 5 schedule line N: too many turns ",
    " 5 schedule line N: no such hart ",
    " 5 schedule line N: no such bus ",
    " 5 schedule line N: no such child ",
    " 5 schedule line N: no end ",
    " 5 schedule line N: after end ",
    " 6 cannot read the image ",
    " 6 cannot read the tree ",
    " 6 cannot read the schedule ",
    " 6 cannot read the witness ",
    " 6 cannot read the checkpoint ",
    " 6 cannot read the test ",
    " 7 cannot write ",
    " 8 no memory ",
    "10 witness: too long ",
    "10 witness line N: bad line ",
    "10 witness line N: too many lines ",
    "10 witness line N: not legal ",
    "11 checkpoint: too long ",
    "11 checkpoint: not checkpoint ",
    "11 checkpoint: wrong version N ",
    "11 checkpoint: cut WORD ",
    "11 checkpoint: other machine WORD ",
    "11 checkpoint: bad word WORD ",
    "11 checkpoint: after end ",
    "11 checkpoint: broken leaf LEAF ",
    "11 checkpoint: broken rule BUS ITEM ",
    "11 checkpoint: broken stamp BUS ",
    "11 checkpoint: broken key OPERATION ",
    "12 small lists: KEY ",
    "13 litmus: too long ",
    "13 litmus line N: WHAT ",
    "13 litmus: too many observed N ",
    "13 litmus: too many locations N ",
    "13 litmus: too many threads N ",
    "13 litmus: other places N ",
    "13 litmus: no leaf N ",
];

// Each fault has its line.
#[test]
fn of_faults(rt: HostRuntime) -> Result<(), Fail> {
    let alloc = rt.alloc();
    let no_files = Files {
        tree: Vec::new(alloc),
        image: Vec::new(alloc),
        schedule: Vec::new(alloc),
    };
    let faults = output(alloc, &["help", "faults"], &no_files)?;
    assert!(rt; is_narrow(&faults));
    for start in FAULTS {
        assert!(rt; has_start(&faults, start), "{start}");
    }
    Ok(())
}
