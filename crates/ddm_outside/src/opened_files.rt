//! The files that a shelf keeps open, by their names.

ghost use Rattle.std.specs.Prelude.{◌≤◌, IfOk, IfSome, length};

use crate::opened_file::OpenedFile;
use std::io::{Read, Result, Seek};

// How many files stay open: as many as a command names.
const MOST_OPEN: usize = 4;

/// The files that are open. They lie in the value itself, so that none takes memory.
#[derive(Drop)]
pub struct OpenedFiles<F> {
    files: [Option<OpenedFile<F>>; MOST_OPEN],
    /// The place of the file that is opened next. The one that is open there is closed.
    next: usize,
}

impl<F: Read + Seek + Drop> OpenedFiles<F> {
    /// No file is open.
    pub fn new() -> Self {
        OpenedFiles {
            files: [None, None, None, None],
            next: 0,
        }
    }

    /// Reads the file of this name from a place on, if it is open.
    pub fn read(&mut self, name: &str, at: u64, into: &mut [u8]) -> Option<Result<usize>>
        ensures { IfSome result (λ read. IfOk read (λ n. n ≤ length into.new)) }
    {
        for slot in self.files.iter_mut() {
            match slot {
                Some(file) if file.is_named(name) => return Some(file.read_at(at, into)),
                _ => {}
            }
        }
        None
    }

    /// Keeps a file open.
    pub fn keep(&mut self, file: OpenedFile<F>) {
        let place = self.next % MOST_OPEN;
        self.files[place] = Some(file);
        self.next = place + 1;
    }
}
