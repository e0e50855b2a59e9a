//! `ddm` runs programs on the machine of a tree, turn by turn, and prints what came of it. Its commands are in the README.
#![tactic(auto)]

pub mod of_ddm_outside;
pub mod of_ddm_types;

use crate::of_ddm_outside::{FileShelf, StdSink};
use crate::of_ddm_types::NoMemory;
use ddm_cli::{Status, code, ddm_main, first_fault, tell};
use std::alloc::Global;
use std::env::{Env, FillError};
use std::process::ExitCode;
use std::str;

/// The most bytes that the system hands over in one word.
const WORD_BYTES: usize = 131_072;

// The words behind the program's name. One that isn't UTF-8 is no word of a command.
fn words<R: Env>(rt: &R, alloc: Global) -> Result<Vec<String>, Status> {
    let mut buffer = bytes(alloc)?;
    let mut words = Vec::new(alloc);
    for place in 0..u32::MAX {
        match rt.arg(place as usize + 1, &mut buffer) {
            Ok(n) => match str::from_utf8(&buffer[..n]) {
                Ok(word) => push_word(&mut words, alloc, word)?,
                Err(_) => return Err(refused(words, alloc, place)?),
            },
            Err(FillError::NotPresent) => return Ok(words),
            Err(FillError::TooLong) => return Err(refused(words, alloc, place)?),
        }
    }
    Ok(words)
}

fn bytes(alloc: Global) -> Result<Vec<u8>, NoMemory> {
    Ok(Vec::from_elem(alloc, 0, WORD_BYTES)?)
}

fn push_word(words: &mut Vec<String>, alloc: Global, word: &str) -> Result<(), NoMemory> {
    words.push(String::from_str(alloc, word)?)?;
    Ok(())
}

// The status where the word there is none: the first word at fault is that one or stands before it. An empty word stands in its place,
// since fewer words may ask for help.
fn refused(mut words: Vec<String>, alloc: Global, place: u32) -> Result<Status, NoMemory> {
    push_word(&mut words, alloc, "")?;
    Ok(Status::Usage(match first_fault(&words) {
        Some(fault) if fault < place => fault,
        _ => place,
    }))
}

fn main(rt: HostRuntime) -> ExitCode {
    let alloc = rt.alloc();
    let mut files = FileShelf::new(&rt);
    let mut out = StdSink::output(rt.stdout());
    let mut faults_out = StdSink::faults(rt.stderr());
    let status = match words(&rt, alloc) {
        Ok(words) => ddm_main(alloc, &words, &mut files, &mut out, &mut faults_out),
        Err(status) => {
            tell(&mut faults_out, &status);
            status
        }
    };
    ExitCode::from(code(&status))
}
