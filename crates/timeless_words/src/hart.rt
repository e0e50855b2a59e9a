//! The words of a hart.

ghost use Rattle.std.specs.Prelude.{◌≡◌, ◌++◌, OnOk, length};
ghost use Rattle.tree_model.specs.State.Values.{LeafValue};
ghost use Rattle.state_words.specs.Parts.{hart_words};
ghost use Rattle.time_laws.specs.Forget.{forget_leaf};
ghost use Rattle.timeless_words.specs.Struck.{hart_struck};

use crate::slices::parted;
use ddm_types::NoMemory;

/// A hart has its registers but x0 and its pc before how many instructions it has completed.
const BEFORE_DONE: usize = 32;

// Puts the words of a hart at the end, and 0 for how many instructions it has completed.
fn push_struck(words: &[u32], out: &mut Vec<u32>) -> Result<(), NoMemory>
    ensures { OnOk result (out.new.items ≡ out.old.items ++ hart_struck words.now) }
{
    let (front, behind) = parted(words, BEFORE_DONE);
    let (_, halt) = parted(behind, 1);
    out.extend_from_slice(front)?;
    out.push(0)?;
    out.extend_from_slice(halt)?;
    Ok(())
}

/// Puts the words of a hart at the end, as if it had completed no instruction.
pub fn push_hart(words: &[u32], out: &mut Vec<u32>) -> Result<(), NoMemory>
    ensures { OnOk result
        ((v : LeafValue) → length v.hart.registers ≡ 32 → words.now ≡ hart_words v →
        out.new.items ≡ out.old.items ++ hart_words (forget_leaf v)) }
{
    push_struck(words, out)
}
