//! A command over files and sinks in memory, and what came of it.

ghost use Rattle.std.specs.Prelude.{◌≡◌, All, IfOk};

use crate::files::{Files, schedule};
use crate::of_ddm_outside::{MemoryShelf, MemorySink, NamedFile, Shelf};
use crate::of_ddm_text::Text;
use ddm_cli::{Status, code, ddm_main};
use std::alloc::Global;
use std::test::Fail;

pub const RUN: &[&str] = &["run", "image", "tree", "schedule"];

pub const TRACE: &[&str] = &["trace", "image", "tree", "schedule"];

pub const UNJAM: &[&str] = &["unjam", "image", "tree", "schedule"];

/// The most bytes that a sink holds, and that it takes at a time.
pub const ROOM: usize = 1 << 20;

const TAKE: usize = 10;

/// What came of a command.
#[derive(Drop)]
pub struct Answer {
    pub status: Status,
    pub out: MemorySink,
    pub faults_out: MemorySink,
}

impl Answer {
    /// Whether the command ended with this number and this line of a fault, and put out nothing.
    pub fn is_refusal(&self, number: u8, line: &str) -> bool {
        let said = match self.faults_out.bytes().split_last() {
            Some((b'\n', said)) => said,
            _ => b"",
        };
        code(&self.status) == number && self.out.bytes().is_empty() && said == line.as_bytes()
    }

    /// Whether the command put out all that it was to.
    pub fn is_done(&self) -> bool {
        code(&self.status) == 0 && self.faults_out.bytes().is_empty()
    }
}

/// A file of these bytes, whose reads haven't failed.
pub fn named(alloc: Global, name: &str, bytes: &[u8]) -> Result<NamedFile, Fail>
    ensures { IfOk result (λ file. file.faults ≡ 0) }
{
    Ok(NamedFile {
        name: Text::of(alloc, name)?,
        bytes: bytes.to_vec(alloc)?,
        faults: 0,
    })
}

/// These files, by the names `tree`, `image` and `schedule`.
pub fn named_files(alloc: Global, files: &Files) -> Result<Vec<NamedFile>, Fail>
    ensures { IfOk result (λ files. All (λ file. file.faults ≡ 0) files.items) }
{
    let mut named_files = Vec::new(alloc);
    named_files.push(named(alloc, "tree", &files.tree)?)?;
    named_files.push(named(alloc, "image", &files.image)?)?;
    named_files.push(named(alloc, "schedule", &files.schedule)?)?;
    Ok(named_files)
}

/// A shelf of these files, whose reads of these numbers fail.
pub fn shelf(alloc: Global, files: &Files, fail: &[u64]) -> Result<MemoryShelf, Fail> {
    Ok(MemoryShelf::new(named_files(alloc, files)?, fail.to_vec(alloc)?))
}

/// A sink that takes ten bytes at a time, and whose writes of these numbers fail.
pub fn sink(alloc: Global, fail: &[u64]) -> Result<MemorySink, Fail> {
    Ok(MemorySink::new(alloc, ROOM, TAKE, fail.to_vec(alloc)?)?)
}

/// The words of a command.
pub fn words_of(alloc: Global, words: &[&str]) -> Result<Vec<String>, Fail> {
    let mut all = Vec::new(alloc);
    for word in words {
        all.push(String::from_str(alloc, word)?)?;
    }
    Ok(all)
}

/// What comes of the command of these words on this shelf and these sinks.
pub fn ask_with<F: Shelf>(
    alloc: Global,
    words: &[&str],
    files: &mut F,
    mut out: MemorySink,
    mut faults_out: MemorySink,
) -> Result<Answer, Fail> {
    let words = words_of(alloc, words)?;
    let status = ddm_main(alloc, &words, files, &mut out, &mut faults_out);
    Ok(Answer {
        status,
        out,
        faults_out,
    })
}

/// What comes of the command of these words where no read and no write fails.
pub fn ask(alloc: Global, words: &[&str], files: &Files) -> Result<Answer, Fail> {
    let mut shelf = shelf(alloc, files, &[])?;
    ask_with(
        alloc,
        words,
        &mut shelf,
        sink(alloc, &[])?,
        sink(alloc, &[])?,
    )
}

/// What the command of these words puts out. It is to be done.
pub fn output(alloc: Global, words: &[&str], files: &Files) -> Result<Vec<u8>, Fail> {
    let answer = ask(alloc, words, files)?;
    if answer.is_done() {
        Ok(answer.out.bytes().to_vec(alloc)?)
    } else {
        Err(Fail::new("the command is done"))
    }
}

/// The number of the first line of a text that is this line.
pub fn line_number(text: &[u8], line: &str) -> Option<usize> {
    text.split(|byte| *byte == b'\n')
        .position(|other| other == line.as_bytes())
}

/// Whether some line of the text begins so.
pub fn has_start(text: &[u8], start: &str) -> bool {
    text.split(|byte| *byte == b'\n')
        .any(|line| line.starts_with(start.as_bytes()))
}

/// The first of these lines that the text doesn't have, or an empty one.
pub fn missing<'a>(text: &[u8], lines: &[&'a str]) -> &'a str {
    for line in lines {
        if line_number(text, line).is_none() {
            return line;
        }
    }
    ""
}

/// A turn of a schedule, and what a trace says of it.
pub type Turn = (&'static str, &'static str);

/// The trace and the report of these turns, each of which is to have its answer.
pub fn traced(
    alloc: Global,
    tree: Vec<u8>,
    image: Vec<u8>,
    turns: &[Turn],
) -> Result<Vec<u8>, Fail> {
    let mut lines = Vec::new(alloc);
    for turn in turns {
        lines.push(turn.0)?;
    }
    let files = Files {
        tree,
        image,
        schedule: schedule(alloc, &lines, 1)?,
    };
    let text = output(alloc, TRACE, &files)?;
    for (number, turn) in turns.iter().enumerate() {
        let line = format!(in alloc; "t {number} {} {}", turn.0, turn.1)?;
        if line_number(&text, line.as_str()) != Some(number) {
            return Err(Fail::new(format_args!("not: {line}")));
        }
    }
    Ok(text)
}
