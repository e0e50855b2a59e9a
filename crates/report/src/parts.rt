//! A text that is made part by part.

ghost use Rattle.std.specs.Prelude.{◌≡◌, ◌≤◌, ℕ, List, [], ◌++◌, length, take, IfOk};

use crate::line::{LINE_BYTES, Line};
use crate::of_ddm_types::NoMemory;
use std::alloc::Global;

/// The least length of a slice that pieces of a text are put into.
pub const LEAST_PIECE: usize = 1_024;

/// A text that is made part by part, each of which fits into a line.
pub trait Parts {
    /// The text that is left.
    ghost left: { Self → List ℕ };

    /// Puts the next part into the empty line. It stays empty only where nothing is left.
    fn put_next(&mut self, line: &mut Line)
        requires { line.old ≡ [] }
        ensures part { left self.old ≡ line.new ++ left self.new }
        ensures end { line.new ≡ [] → left self.old ≡ [] };
}

/// Puts parts at the front of a slice while a further one fits in any case, and says how many bytes they are.
pub fn put_piece<P: Parts>(parts: &mut P, into: &mut [u8]) -> usize
    requires { LEAST_PIECE ≤ length into.old }
    ensures within { result ≤ length into.new }
    ensures piece { P.left parts.old ≡ take result into.new ++ P.left parts.new }
    ensures end { result ≡ 0 → P.left parts.old ≡ [] }
{
    let mut line = Line::new();
    let mut filled = 0;
    'parts: while into.len() - filled >= LINE_BYTES {
        line.clear();
        parts.put_next(&mut line);
        if line.is_empty() {
            break;
        }
        let end = filled + line.len();
        into[filled..end].copy_from_slice(line.as_slice());
        filled = end;
    }
    filled
}

/// All that is left.
pub fn joined<P: Parts>(alloc: Global, parts: &mut P) -> Result<Vec<u8>, NoMemory>
    ensures { IfOk result (λ text. text.items ≡ P.left parts.old) }
{
    let mut text = Vec::new(alloc);
    let mut line = Line::new();
    'parts: loop {
        line.clear();
        parts.put_next(&mut line);
        if line.is_empty() {
            break;
        }
        text.extend_from_slice(line.as_slice())?;
    }
    Ok(text)
}
