//! The words of a list.

ghost use Rattle.std.specs.Prelude.{OnErr, OnOk};
ghost use Rattle.tx_queue.specs.DdmText.Adds.{Adds};
ghost use Rattle.tx_queue.specs.StateWords.Begins.{Begins};
ghost use Rattle.tx_queue.specs.StateWords.Parts.{counted};

use crate::Queue;
use crate::of_ddm_types::NoMemory;
use crate::of_item_states::Named;
use crate::of_state_words::{Spelled, push_words};

impl<T: Named + Spelled> Queue<T> {
    /// Puts the words of its entries at the end, with how many there are before them.
    pub fn write(&self, out: &mut Vec<u32>) -> Result<(), NoMemory>
        ensures ok { OnOk result (Adds out.old.items out.new.items (counted T.words self.now.list)) }
        ensures err { OnErr result (Begins out.old.items out.new.items) }
    {
        push_words(out, &[self.len()])?;
        for entry in self.ring.iter() {
            entry.spell(out)?;
        }
        Ok(())
    }
}
