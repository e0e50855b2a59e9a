//! A shelf in memory that fails where it is told to.

ghost use Rattle.std.specs.Prelude.{◌≡◌, ℕ, ◌-◌, ◌<◌, ◌≤◌, ◌↔◌, min, All, List, length, IsErr, IfOk, OnOk, OnErr, IfSome};
ghost use Rattle.ddm_outside.specs.NamedFiles.{bytes_of, faults_of};
ghost use Rattle.ddm_outside.specs.Causes.{raised, HasCause};
ghost use Rattle.ddm_outside.specs.Telling.{ReadsTold};

use crate::calls::is_listed;
use crate::named_files::{copy_part, place_named};
use crate::{Failed, NamedFile, Shelf};

/// A shelf in memory, which tells its files and fails where it is told to. Of two files with one name
/// only the first is read and counted. The names that it doesn't have share one count. A count, and the
/// number of the next read, stay at their last value.
#[derive(Drop)]
pub struct MemoryShelf {
    files: Vec<NamedFile>,
    fail: Vec<u64>,
    calls: u64,
    unknown: u64,
}

impl MemoryShelf {
    ghost use Rattle.ddm_outside.specs.MemoryShelf.{told_of, count_of, next_read, failing_reads};

    /// A shelf with these files. The reads are numbered from 0, and those whose numbers are listed fail.
    pub fn new(files: Vec<NamedFile>, fail: Vec<u64>) -> MemoryShelf
        requires { All (λ file. file.faults ≡ 0) files.items }
        ensures told { told_of result ≡ bytes_of files.items }
        ensures sound { (name : List ℕ) → count_of result name ≡ 0 }
        ensures first { next_read result ≡ 0 }
        ensures failing { failing_reads result ≡ fail.items }
    {
        MemoryShelf {
            files,
            fail,
            calls: 0,
            unknown: 0,
        }
    }
}

impl Shelf for MemoryShelf {
    ghost use Rattle.ddm_outside.specs.MemoryShelf.{told_of, count_of, next_read, failing_reads};
    ghost use Rattle.ddm_outside.specs.MemoryShelf.{FailsNext, RaisesCount};

    ghost told = { told_of };

    ghost faults = { count_of };

    fn read(&mut self, name: &str, at: u64, into: &mut [u8]) -> Result<usize, Failed>
        requires { 0 < length into.old }
        ensures bound { IfOk result (λ n. n ≤ length into.new) }
        ensures told { ReadsTold (told_of self.old name.now) at result into.new }
        ensures same { told_of self.new ≡ told_of self.old }
        ensures cause { HasCause (count_of self.old name.now) (count_of self.new name.now) result }
        ensures later { (other : List ℕ) → count_of self.old other ≤ count_of self.new other }

        // Which reads fail, and how many bytes the others give.
        ensures fails { IsErr result ↔ FailsNext self.old name.now }
        ensures amount { IfOk result (λ n. IfSome (told_of self.old name.now)
            (λ file. n ≡ min (length into.old) (length file - at))) }

        // What is counted.
        ensures sound { OnOk result (count_of self.new ≡ count_of self.old) }
        ensures counted { OnErr result (RaisesCount self.old self.new name.now) }
        ensures number { next_read self.new ≡ raised (next_read self.old) }
        ensures failing { failing_reads self.new ≡ failing_reads self.old }
    {
        let call = self.calls;
        self.calls = call.saturating_add(1);
        let Some(place) = place_named(&self.files, name) else {
            self.unknown = self.unknown.saturating_add(1);
            return Err(Failed);
        };
        if is_listed(&self.fail, call) {
            let file = &mut self.files[place];
            file.faults = file.faults.saturating_add(1);
            return Err(Failed);
        }
        Ok(copy_part(&self.files[place].bytes, at, into))
    }
}
