//! Which harts of a machine have halted.

ghost use Rattle.std.specs.Prelude.{◌≡◌, length};
ghost use Rattle.tree_model.specs.State.Shape.{tree_counts};
ghost use Rattle.outcome_model.specs.Halted.{all_halted};
ghost use Rattle.recording.specs.Runs.{flag_of, flags_of};

use any_runs::of_ddm_tree::{Machine, Subtree};
use ddm_types::{HartNo, Turn};

/// Puts in place of each flag whether the hart of its number has halted, and says whether all have.
pub fn put_flags<const WORDS: usize, C: Subtree<WORDS>>(
    machine: &Machine<WORDS, C>,
    flags: &mut [bool],
) -> bool
    requires { length flags.old ≡ (tree_counts machine.now.machine).leaves }
    ensures flags { flags.new ≡ flags_of machine.now.machine }
    ensures all { result ≡ all_halted machine.now.machine }
{
    let mut all = true;
    for leaf in 0..machine.counts().leaves {
        let hart = machine.hart(HartNo(leaf));
        let flag = hart.halted().is_some();
        flags[leaf as usize] = flag;
        all &= flag;
    }
    all
}

/// The flag of the hart whose turn it is; a bus has none.
#[inline(always)]
pub(crate) fn flag_of(turn: &Turn, flags: &[bool]) -> bool
    ensures { result ≡ flag_of turn.now flags.now }
{
    match *turn {
        Turn::Hart { hart, .. } => flags.get(hart.0 as usize).copied().unwrap_or(false),
        _ => false,
    }
}
