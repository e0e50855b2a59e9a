//! The section of a leaf or a directory is read.

ghost use Rattle.std.specs.Prelude.{◌≡◌, ◌<◌, ◌≤◌, ◌^◌, Err, drop, length, IfErr, IfOk};
ghost use Rattle.ddm_tree.specs.TreeModel.Turns.Machine.{machine_leaves};
ghost use Rattle.ddm_tree.specs.StateReading.Machine.{read_each};
ghost use Rattle.ddm_tree.specs.Parts.{LeavesRead, leaf_read, leaf_section};

use crate::of_ddm_types::LeafNo;
use crate::of_state_reading::StateRefusal;
use crate::parts::Parts;
use crate::section::Section;
use crate::subtree::Subtree;

/// A section of a leaf: that of its hart, or the rest.
fn leaf_section(harts: bool, leaf: LeafNo) -> Section
    ensures { result ≡ leaf_section harts leaf }
{
    if harts {
        Section::Hart(leaf)
    } else {
        Section::Leaf(leaf)
    }
}

impl<const WORDS: usize, C: Subtree<WORDS> + Drop> Parts<WORDS, C> {
    /// Reads a section of each leaf, in order of number: their harts, or the rest.
    pub(crate) fn read_leaves(
        self,
        harts: bool,
        words: &[u32],
        from: u32,
    ) -> Result<(Self, u32), StateRefusal>
        requires few { length words.now < 2 ^ 32 }
        requires inside { from ≤ length words.now }
        ensures read { IfOk result (λ r. LeavesRead harts words.now from self r.0 r.1) }
        ensures refused { IfErr result (λ e. read_each (leaf_read harts) (machine_leaves self) from (drop from words.now) ≡ Err e) }
        ensures inside { IfOk result (λ r. r.1 ≤ length words.now) }
    {
        let leaves = self.counts().leaves;
        let mut parts = self;
        let mut at = from;
        for leaf in 0..leaves {
            // What its type keeps, for the proof.
            parts.counts();
            let section = leaf_section(harts, LeafNo(leaf));
            let (next, after) = parts.read_section(section, words, at)?;
            parts = next;
            at = after;
        }
        Ok((parts, at))
    }
}
