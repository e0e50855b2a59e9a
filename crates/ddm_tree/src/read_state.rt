//! A whole state is read and judged.

ghost use Rattle.std.specs.Prelude.{◌≡◌, ◌≢◌, ◌<◌, ◌≤◌, ◌^◌, None, Some, Ok, Err, drop, length, slice_index, IfErr, IfOk, OnOk};
ghost use Rattle.ddm_tree.specs.TreeModel.State.Shape.{frame_of};
ghost use Rattle.ddm_tree.specs.StateReading.declared.StateRefusal.TheVariants.{NoMemory as WantOfMemory};
ghost use Rattle.ddm_tree.specs.StateReading.Machine.{read_words};
ghost use Rattle.state_judging.specs.Judged.{judged, read_state};

use crate::expected::expect_word;
use crate::machine::Machine;
use crate::of_ddm_types::NoMemory;
use crate::of_state_reading::StateRefusal;
use crate::parts::Parts;
use crate::subtree::Subtree;
use std::alloc::Global;

/// The word behind all others.
const END: u32 = 0x454d_4444;

impl<const WORDS: usize, C: Subtree<WORDS> + Drop> Parts<WORDS, C> {
    /// Reads a whole state, in which so many instructions were completed, and gives the number of the word behind it.
    fn read_words(self, retired: u32, words: &[u32], from: u32) -> Result<(Self, u32), StateRefusal>
        requires few { length words.now < 2 ^ 32 }
        requires inside { from ≤ length words.now }
        ensures read { IfOk result
            (λ r. read_words self retired from (drop from words.now)
            ≡ Ok (record { value = r.0; at = r.1; rest = drop r.1 words.now })) }
        ensures refused { IfErr result (λ e. e ≢ WantOfMemory → read_words self retired from (drop from words.now) ≡ Err e) }
        ensures inside { IfOk result (λ r. r.1 ≤ length words.now) }
        ensures many { IfOk result (λ r. length r.0.ops < 2 ^ 32) }
    {
        // What its type keeps, for the proof.
        self.counts();
        let (harts, at) = self.read_leaves(true, words, from)?;
        let (buses, at) = harts.read_buses(words, at)?;
        let (leaves, mut at) = buses.read_leaves(false, words, at)?;
        expect_word(words, &mut at, retired)?;
        let (whole, mut at) = leaves.read_ops(retired, words, at)?;
        expect_word(words, &mut at, END)?;
        Ok((whole, at))
    }
}

impl<const WORDS: usize, C: Subtree<WORDS>> Parts<WORDS, C> {
    /// Why these aren't the parts of a machine: the first rule of a bus or of time that is broken.
    fn broken(&self, alloc: Global) -> Result<Option<StateRefusal>, NoMemory>
        requires { length self.now.ops < 2 ^ 32 }
        ensures { IfOk result (λ o. o ≡ judged self.now) }
    {
        match self.broken_rule() {
            Some(refusal) => Ok(Some(refusal)),
            None => match self.broken_stamp() {
                Some(refusal) => Ok(Some(refusal)),
                None => self.broken_key(alloc),
            },
        }
    }

    /// The same as a refusal, that of want of memory among them.
    fn judge(&self, alloc: Global) -> Result<(), StateRefusal>
        requires { length self.now.ops < 2 ^ 32 }
        ensures ok { OnOk result (judged self.now ≡ None) }
        ensures refused { IfErr result (λ e. e ≢ WantOfMemory → judged self.now ≡ Some e) }
    {
        match self.broken(alloc) {
            Ok(None) => Ok(()),
            Ok(Some(refusal)) => Err(refusal),
            Err(_) => Err(StateRefusal::NoMemory),
        }
    }
}

impl<const WORDS: usize, C: Subtree<WORDS> + Drop> Machine<WORDS, C> {
    /// The machine with the state that these words say, from this one on, in place of that of a machine of the same tree and image,
    /// and the number of the word behind them. Word 8 says how many instructions were completed. It has no memory for operations
    /// but for those that it has.
    pub fn read_state(
        alloc: Global,
        fresh: Self,
        words: &[u32],
        from: u32,
    ) -> Result<(Self, u32), StateRefusal>
        requires few { length words.now < 2 ^ 32 }
        requires head { 8 < length words.now }
        requires inside { from ≤ length words.now }
        ensures read { IfOk result
            (λ r. read_state fresh.machine (slice_index words.now 8) from (drop from words.now)
            ≡ Ok (record { value = r.0.machine; at = r.1; rest = drop r.1 words.now })) }
        ensures refused { IfErr result
            (λ e. e ≢ WantOfMemory →
            read_state fresh.machine (slice_index words.now 8) from (drop from words.now) ≡ Err e) }
        ensures frame { IfOk result (λ r. frame_of r.0.machine ≡ frame_of fresh.machine) }
        ensures room { IfOk result (λ r. r.0.spare ≡ 0) }
        ensures turns { IfOk result (λ r. r.0.turns ≡ 1048576) }
        ensures inside { IfOk result (λ r. r.1 ≤ length words.now) }
    {
        let (parts, at) = fresh.into_parts().read_words(words[8], words, from)?;
        parts.judge(alloc)?;
        Ok((parts.into_machine(), at))
    }
}
