//! The words of the top.

ghost use Rattle.std.specs.Prelude.{OnErr, OnOk};
ghost use Rattle.top_node.specs.DdmText.Adds.{Adds};
ghost use Rattle.top_node.specs.StateWords.Begins.{Begins};
ghost use Rattle.top_node.specs.StateWords.Parts.{dir_words};

use crate::of_ddm_types::NoMemory;
use crate::of_state_words::push_words;
use crate::state::TopState;

impl<const WORDS: usize> TopState<WORDS> {
    /// Puts its words at the end. Its epoch is 0; it has no requests, replies and parked copies, and keeps no place.
    pub fn write_part(&self, out: &mut Vec<u32>) -> Result<(), NoMemory>
        ensures ok { OnOk result (Adds out.old.items out.new.items (dir_words self.now)) }
        ensures err { OnErr result (Begins out.old.items out.new.items) }
    {
        push_words(out, &[self.count, 0, 0, 0, 0])?;
        self.kept.write(true, out)?;
        self.down.write(out)?;
        push_words(out, &[0, 0, 0, 0])?;
        Ok(())
    }
}
