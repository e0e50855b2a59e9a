//! A line in a buffer of its own.

ghost use Rattle.std.specs.Prelude.{◌≡◌, ◌+◌, ◌-◌, ◌≤◌, ◌↔◌, [], ◌++◌, length, decimal, IsTrue};
ghost use Rattle.report.specs.Roles.{role_text};

use crate::buffers::TextBuffer;
use crate::of_ddm_text::{MOST_DIGITS, write_digits};
use crate::of_ddm_types::NoMemory;
use crate::roles::FileRole;
use std::marker::Model;

/// The most bytes of a line in a buffer of its own.
pub const LINE_BYTES: usize = 512;

/// A line in a buffer of its own: it takes no memory. A contract sees its bytes.
#[derive(Drop)]
pub struct Line {
    bytes: [u8; LINE_BYTES],
    len: usize,
}

impl Model for Line {
    ghost use Rattle.std.specs.Prelude.{ℕ, List, take, ◌≤◌};

    ghost Value = { List ℕ };

    ghost view = { λ line. take line.len line.bytes };

    ghost invariant = { λ line. line.len ≤ 512 };
}

impl Line {
    /// The empty line.
    pub fn new() -> Self
        ensures { result ≡ [] }
    {
        Line {
            bytes: [0; LINE_BYTES],
            len: 0,
        }
    }

    /// Makes it the empty line.
    pub fn clear(&mut self)
        ensures { self.new ≡ [] }
    {
        self.len = 0;
    }

    pub fn len(&self) -> usize
        ensures length { result ≡ length self.now }
        ensures within { result ≤ LINE_BYTES }
    {
        self.len
    }

    pub fn is_empty(&self) -> bool
        ensures { IsTrue result ↔ (self.now ≡ []) }
    {
        self.len == 0
    }

    pub fn as_slice(&self) -> &[u8]
        ensures { result.now ≡ self.now }
    {
        &self.bytes[..self.len]
    }

    /// Puts these bytes at the end.
    #[inline(always)]
    pub fn push(&mut self, more: &[u8])
        requires { length self.old + length more.now ≤ LINE_BYTES }
        ensures { self.new ≡ self.old ++ more.now }
    {
        let end = self.len + more.len();
        self.bytes[self.len..end].copy_from_slice(more);
        self.len = end;
    }

    /// Puts the decimal digits of a number at the end.
    pub fn push_number(&mut self, n: u64)
        requires { length self.old + 20 ≤ LINE_BYTES }
        ensures digits { self.new ≡ self.old ++ decimal n }
        ensures short { length self.new ≤ length self.old + 20 }
    {
        let mut digits = [0; MOST_DIGITS];
        let at = write_digits(n, &mut digits);
        self.push(&digits[at..]);
    }

    /// Puts at the end what a file is to a command.
    pub fn push_role(&mut self, role: FileRole)
        requires { length self.old + 10 ≤ LINE_BYTES }
        ensures name { self.new ≡ self.old ++ role_text role }
        ensures short { length self.new ≤ length self.old + 10 }
    {
        match role {
            FileRole::ImageFile => self.push(b"image"),
            FileRole::TreeFile => self.push(b"tree"),
            FileRole::ScheduleFile => self.push(b"schedule"),
            FileRole::WitnessFile => self.push(b"witness"),
            FileRole::CheckpointFile => self.push(b"checkpoint"),
        }
    }
}

impl TextBuffer for Line {
    ghost text = { λ line. line };

    ghost room = { λ line. 512 - length line };

    #[inline(always)]
    fn put(&mut self, bytes: &[u8]) -> Result<(), NoMemory> {
        if LINE_BYTES - self.len() < bytes.len() {
            return Err(NoMemory);
        }
        self.push(bytes);
        Ok(())
    }
}
