//! A file that stays open, and where it stands.

ghost use Rattle.std.specs.Prelude.{◌≡◌, ◌+◌, ◌^◌, ◌<◌, ◌≤◌, Some, IfOk, length};
ghost use Rattle.std.specs.Io.KnownBytes.{ReadConsumes};

use arrayvec::ArrayString;
use std::fs;
use std::io::{Error, ErrorKind, Read, Result, Seek, SeekFrom};
use std::rt::Files;

// The longest path that the system takes.
const PATH_BYTES: usize = 4095;

/// A file that is open: the name that it was opened by, and where it stands, if that is known.
#[derive(Drop)]
pub struct OpenedFile<F> {
    name: ArrayString<PATH_BYTES>,
    file: F,
    place: Option<u64>,
}

impl<F: Read + Seek> OpenedFile<F> {
    /// Opens a file, which then stands at its front.
    pub fn open<R: Files<File = F>>(rt: &R, name: &str) -> Result<Self> {
        let Ok(path) = ArrayString::from(name) else {
            return Err(Error::from(ErrorKind::InvalidInput));
        };
        Ok(OpenedFile {
            name: path,
            file: fs::open(rt, name)?,
            place: Some(0),
        })
    }

    /// Whether the file was opened by this name.
    pub fn is_named(&self, name: &str) -> bool {
        self.name.as_str() == name
    }

    /// Reads from a place on. Only where the file stands elsewhere it seeks, which a stream can't.
    pub fn read_at(&mut self, at: u64, into: &mut [u8]) -> Result<usize>
        ensures bound { IfOk result (λ n. n ≤ length into.new) }

        // Where it stands there already, it gives what is left, and stands behind it.
        ensures next { self.old.place ≡ Some at
            → ReadConsumes (F.remaining self.old.file) (F.remaining self.new.file) result into.new }
        ensures behind { IfOk result (λ n. at + n < 2 ^ 64 → self.new.place ≡ Some (at + n)) }
    {
        if self.place != Some(at) {
            self.file.seek(SeekFrom::Start(at))?;
        }
        self.place = None;
        let n = read_some(&mut self.file, into)?;
        self.place = at.checked_add(n as u64);
        Ok(n)
    }
}

// One read. One that a signal interrupts has read nothing, and is tried again.
fn read_some<F: Read>(file: &mut F, into: &mut [u8]) -> Result<usize>
    ensures bound { IfOk result (λ n. n ≤ length into.new) }
    ensures bytes { ReadConsumes (F.remaining file.old) (F.remaining file.new) result into.new }
{
    for _ in 0..u64::MAX {
        match file.read(into) {
            Err(e) if e.kind() == ErrorKind::Interrupted => {}
            answer => return answer,
        }
    }
    Err(Error::from(ErrorKind::Interrupted))
}
