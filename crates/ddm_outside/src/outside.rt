//! What a program reads from and writes to: shelves and sinks.

ghost use Rattle.std.specs.Prelude.{◌≡◌, ℕ, ◌<◌, ◌≤◌, List, Option, length, IfOk};
ghost use Rattle.ddm_outside.specs.Causes.{HasCause};
ghost use Rattle.ddm_outside.specs.Telling.{ReadsTold, WritesTold};

/// A read or a write failed, and a count of faults rose or has its last value.
#[derive(Clone, Copy, Debug, PartialEq, Eq)]
pub struct Failed;

/// Where files are read from, by their names. A missing file is a fault.
pub trait Shelf {
    /// The bytes of a named file, where it is told.
    ghost told: { Self → List ℕ → Option (List ℕ) };

    /// How often a read of that name has failed.
    ghost faults: { Self → List ℕ → ℕ };

    /// Fills the front of `into` with bytes of a file from an offset on, and answers how many. That is 0
    /// at the file's end alone. Elsewhere fewer may come than fit.
    fn read(&mut self, name: &str, at: u64, into: &mut [u8]) -> Result<usize, Failed>
        requires { 0 < length into.old }
        ensures bound { IfOk result (λ n. n ≤ length into.new) }
        ensures told { ReadsTold (told self.old name.now) at result into.new }
        ensures same { told self.new ≡ told self.old }
        ensures cause { HasCause (faults self.old name.now) (faults self.new name.now) result }
        ensures later { (other : List ℕ) → faults self.old other ≤ faults self.new other };
}

/// Where bytes are written to.
pub trait Sink {
    /// All bytes taken so far, where it tells them.
    ghost held: { Self → Option (List ℕ) };

    /// How often a write has failed.
    ghost faults: { Self → ℕ };

    /// Takes the first of the bytes, and answers how many.
    fn write(&mut self, bytes: &[u8]) -> Result<usize, Failed>
        requires { 0 < length bytes.now }
        ensures took { WritesTold (held self.old) (held self.new) bytes.now result }
        ensures cause { HasCause (faults self.old) (faults self.new) result };
}
