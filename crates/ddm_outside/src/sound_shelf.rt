//! A shelf in memory that never fails.

ghost use Rattle.std.specs.Prelude.{◌≡◌, ℕ, ◌-◌, ◌<◌, ◌≤◌, min, Some, Ok, List, length, IfOk};
ghost use Rattle.ddm_outside.specs.NamedFiles.{bytes_or_none};
ghost use Rattle.ddm_outside.specs.Telling.{ReadsTold};

use crate::named_files::{copy_part, place_named};
use crate::{Failed, NamedFile, Shelf};

/// A shelf in memory that never fails. A name that it doesn't have is that of an empty file, and of two
/// files with one name only the first is read.
#[derive(Drop)]
pub struct SoundShelf {
    files: Vec<NamedFile>,
}

impl SoundShelf {
    ghost use Rattle.ddm_outside.specs.SoundShelf.{told_of};

    /// A shelf with these files, whose own counts it doesn't use.
    pub fn new(files: Vec<NamedFile>) -> SoundShelf
        ensures { (name : List ℕ) → told_of result name ≡ Some (bytes_or_none files.items name) }
    {
        SoundShelf { files }
    }
}

impl Shelf for SoundShelf {
    ghost use Rattle.ddm_outside.specs.SoundShelf.{told_of, files_of};

    ghost told = { told_of };

    ghost faults = { λ _ _. 0 };

    fn read(&mut self, name: &str, at: u64, into: &mut [u8]) -> Result<usize, Failed>
        requires { 0 < length into.old }
        ensures bound { IfOk result (λ n. n ≤ length into.new) }
        ensures told { ReadsTold (told_of self.old name.now) at result into.new }
        ensures same { told_of self.new ≡ told_of self.old }

        // No read fails, and each gives what is there and fits.
        ensures amount { result ≡ Ok (min (length into.old)
            (length (bytes_or_none (files_of self.old) name.now) - at)) }
    {
        let Some(place) = place_named(&self.files, name) else {
            return Ok(0);
        };
        Ok(copy_part(&self.files[place].bytes, at, into))
    }
}
