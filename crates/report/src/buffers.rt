//! What text is put into.

ghost use Rattle.std.specs.Prelude.{ℕ, List, length, OnOk};
ghost use Rattle.report.specs.DdmText.Adds.{Adds};
ghost use Rattle.report.specs.Room.{UsesRoom};

use crate::of_ddm_types::NoMemory;

/// What text is put into, at the end of what is there.
pub trait TextBuffer {
    /// The text that is there.
    ghost text: { Self → List ℕ };

    /// For how many bytes more there is room in any case.
    ghost room: { Self → ℕ };

    /// Puts these bytes at the end.
    fn put(&mut self, bytes: &[u8]) -> Result<(), NoMemory>
        ensures text { OnOk result (Adds (text self.old) (text self.new) bytes.now) }
        ensures room { UsesRoom (length bytes.now) (room self.old) (room self.new) result };
}

impl TextBuffer for Vec<u8> {
    ghost text = { λ v. v.items };

    ghost room = { λ _. 0 };

    fn put(&mut self, bytes: &[u8]) -> Result<(), NoMemory> {
        self.extend_from_slice(bytes)?;
        Ok(())
    }
}
