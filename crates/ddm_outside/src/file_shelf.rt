//! The files of the system as a shelf.

ghost use Rattle.std.specs.Prelude.{◌≡◌, ◌<◌, ◌≤◌, None, IfOk, OnOk, OnErr, length};
ghost use Rattle.ddm_outside.specs.Causes.{raised, HasCause};
ghost use Rattle.ddm_outside.specs.Telling.{ReadsTold};

use crate::opened_file::OpenedFile;
use crate::opened_files::OpenedFiles;
use crate::{Failed, Shelf};
use std::io;
use std::rt::Files;

/// The files of the system, by their paths. A file is opened at the first read of its name and stays
/// open, so a pipe or another stream is read like a file, from the front on and once: named again, it
/// can't go back to its front, and that read fails. The shelf tells nothing of the files, and all names
/// share one count of the reads that failed. The count stays at its last value.
#[derive(Drop)]
pub struct FileShelf<'a, R: Files> {
    rt: &'a R,
    open: OpenedFiles<R::File>,
    faults: u64,
}

impl<'a, R: Files> FileShelf<'a, R> {
    ghost use Rattle.ddm_outside.specs.FileShelf.{count_of};

    /// A shelf that reads by these means.
    pub fn new(rt: &'a R) -> Self
        ensures { count_of result ≡ 0 }
    {
        FileShelf {
            rt,
            open: OpenedFiles::new(),
            faults: 0,
        }
    }

    // A file that isn't open is opened. One whose first read fails stays open too, and fails again.
    fn read_at(&mut self, name: &str, at: u64, into: &mut [u8]) -> io::Result<usize>
        requires { 0 < length into.old }
        ensures bound { IfOk result (λ n. n ≤ length into.new) }
        ensures uncounted { count_of self.new ≡ count_of self.old }
    {
        if let Some(read) = self.open.read(name, at, into) {
            return read;
        }
        let mut file = OpenedFile::open(self.rt, name)?;
        let answer = file.read_at(at, into);
        self.open.keep(file);
        answer
    }
}

impl<'a, R: Files> Shelf for FileShelf<'a, R> {
    ghost use Rattle.ddm_outside.specs.FileShelf.{count_of};

    ghost told = { λ _ _. None };

    ghost faults = { λ shelf _. count_of shelf };

    fn read(&mut self, name: &str, at: u64, into: &mut [u8]) -> Result<usize, Failed>
        requires { 0 < length into.old }
        ensures bound { IfOk result (λ n. n ≤ length into.new) }
        ensures told { ReadsTold None at result into.new }
        ensures cause { HasCause (count_of self.old) (count_of self.new) result }
        ensures later { count_of self.old ≤ count_of self.new }

        // What is counted.
        ensures sound { OnOk result (count_of self.new ≡ count_of self.old) }
        ensures counted { OnErr result (count_of self.new ≡ raised (count_of self.old)) }
    {
        match self.read_at(name, at, into) {
            Ok(n) => Ok(n),
            Err(_) => {
                self.faults = self.faults.saturating_add(1);
                Err(Failed)
            }
        }
    }
}
