//! Stamps and keys are judged, of a machine taken apart.

ghost use Rattle.std.specs.Prelude.{◌≡◌, ◌<◌, ◌^◌, [], true, IfOk, IfSome, find, length, option_map};
ghost use Rattle.std.specs.List.{range_with_len};
ghost use Rattle.ddm_tree.specs.StateReading.declared.StateRefusal.TheVariants.{BrokenStamp};
ghost use Rattle.ddm_tree.specs.TreeRules.Order.Places.{dirs_at};
ghost use Rattle.ddm_tree.specs.TreeModel.State.Shape.{tree_counts};
ghost use Rattle.ddm_tree.specs.Keys.{comes_behind, IsTaken};
ghost use Rattle.state_judging.specs.Judged.{broken_key, stamps_broken};

use crate::of_ddm_types::{BusNo, Key, NoMemory, Op};
use crate::of_state_reading::StateRefusal;
use crate::parts::Parts;
use crate::subtree::Subtree;
use std::alloc::Global;
use std::collections::BTreeSet;

/// Whether a key is greater than the last one of its hart, if there is one.
fn comes_behind(last: Option<Key>, key: &Key) -> bool
    ensures { result ≡ comes_behind last key.now }
{
    match last {
        None => true,
        Some(last) => last.precedes(key),
    }
}

/// Makes an operation's key the last one of its hart, if it is greater than the last one and there is a place for it.
fn take_key(lasts: &mut [Option<Key>], op: &Op) -> bool
    ensures { result ≡ true → IsTaken op.now lasts.old lasts.new }
{
    let hart = op.hart.0 as usize;
    if hart >= lasts.len() {
        return false;
    }
    let last = lasts[hart];
    if !comes_behind(last, &op.key) {
        return false;
    }
    lasts[hart] = Some(op.key);
    true
}

impl<const WORDS: usize, C: Subtree<WORDS>> Parts<WORDS, C> {
    /// The least bus whose directory's stamps are out of order.
    pub fn broken_stamp(&self) -> Option<StateRefusal>
        ensures { result
            ≡ option_map (λ bus. BrokenStamp bus)
            (find (stamps_broken (dirs_at self.now)) (range_with_len 0 (length self.now.traffic))) }
    {
        for bus in 0..self.counts.buses {
            if self.stamps_broken(BusNo(bus)) {
                return Some(StateRefusal::BrokenStamp(bus));
            }
        }
        None
    }

    /// The same as `broken_key`, where each hart's keys ascend up to it; None where they don't, or where an operation is of no leaf.
    /// `lasts` is a place for each leaf.
    fn broken_key_in_turn(&self, lasts: &mut [Option<Key>]) -> Option<Option<StateRefusal>>
        requires few { length self.now.ops < 2 ^ 32 }
        requires places { length lasts.old ≡ (tree_counts self.now).leaves }
        ensures { IfSome result (λ o. o ≡ broken_key self.now [] 0 self.now.ops) }
    {
        for k in 0..self.ops.len() {
            let op = self.ops.get(k);
            if !self.key_fits(&op) {
                return Some(Some(StateRefusal::BrokenKey(k as u32)));
            }
            if !take_key(lasts, &op) {
                return None;
            }
        }
        Some(None)
    }

    /// The same as `broken_key`, whatever the order of the operations.
    fn broken_key_among(&self, alloc: Global) -> Result<Option<StateRefusal>, NoMemory>
        requires few { length self.now.ops < 2 ^ 32 }
        ensures { IfOk result (λ o. o ≡ broken_key self.now [] 0 self.now.ops) }
    {
        let mut seen = BTreeSet::new(alloc);
        for k in 0..self.ops.len() {
            let op = self.ops.get(k);
            if !self.key_fits(&op) {
                return Ok(Some(StateRefusal::BrokenKey(k as u32)));
            }
            let new = seen.insert(op.key)?;
            if !new {
                return Ok(Some(StateRefusal::BrokenKey(k as u32)));
            }
        }
        Ok(None)
    }
    /// The first operation whose key isn't one of its leaf, or is that of an operation before it. In a run each hart's keys ascend, and
    /// then the last key of each is all that is kept.
    pub fn broken_key(&self, alloc: Global) -> Result<Option<StateRefusal>, NoMemory>
        requires few { length self.now.ops < 2 ^ 32 }
        ensures { IfOk result (λ o. o ≡ broken_key self.now [] 0 self.now.ops) }
    {
        let mut lasts = vec![in alloc; None; self.counts.leaves as usize]?;
        match self.broken_key_in_turn(&mut lasts) {
            Some(judged) => Ok(judged),
            None => self.broken_key_among(alloc),
        }
    }
}
