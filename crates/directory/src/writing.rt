//! The words of a directory.

ghost use Rattle.std.specs.Prelude.{◌≡◌, ◌<◌, ◌^◌, count_by, length, OnErr, OnOk};
ghost use Rattle.directory.specs.DdmText.Adds.{Adds};
ghost use Rattle.directory.specs.TreeModel.State.States.{is_held};
ghost use Rattle.directory.specs.StateWords.Begins.{Begins};
ghost use Rattle.directory.specs.StateWords.Numbers.{note_words};
ghost use Rattle.directory.specs.StateWords.Parts.{dir_words, is_noted, is_recorded, record_of, records};

use crate::of_ddm_types::{ChildNo, Hold, ItemId, NoMemory, PendingWhy};
use crate::of_state_words::{flag_number, hold_number, push_words, stamp_words};
use crate::packed::PackedItem;
use crate::state::DirState;
use crate::table::ItemTable;

fn is_held(hold: Hold) -> bool
    ensures { result ≡ is_held hold }
{
    match hold {
        Hold::Invalid => false,
        Hold::Shared | Hold::Exclusive => true,
    }
}

impl PackedItem {
    /// The kind of its note, the note's child, and the set of those that joined it.
    fn note_words(self) -> [u32; 3]
        ensures { result ≡ note_words self.note }
    {
        let joined = u32::from(self.joined());
        match self.note() {
            Some(PendingWhy::Local(ChildNo(first))) => [1, first, joined],
            Some(PendingWhy::UpRead(ChildNo(first))) => [2, first, joined],
            Some(PendingWhy::UpErase(ChildNo(child))) => [3, child, 0],
            Some(PendingWhy::Answering | PendingWhy::InDown) | None => [0, 0, 0],
        }
    }

    fn is_noted(self) -> bool
        ensures { result ≡ is_noted self.note }
    {
        self.note().is_some()
    }

    /// Whether a directory, or the top, has a record of it.
    pub(crate) fn is_recorded(self, top: bool) -> bool
        ensures { result ≡ is_recorded top self }
    {
        if top {
            self.is_noted()
        } else {
            is_held(self.hold()) || self.is_noted() || self.answering()
        }
    }

    /// Puts its record at the end, if there is one.
    fn write(self, item: ItemId, top: bool, out: &mut Vec<u32>) -> Result<(), NoMemory>
        ensures ok { OnOk result (Adds out.old.items out.new.items (record_of top item self)) }
        ensures err { OnErr result (Begins out.old.items out.new.items) }
    {
        if !self.is_recorded(top) {
            return Ok(());
        }
        push_words(out, &[item.0, hold_number(self.hold())])?;
        push_words(out, &self.note_words())?;
        push_words(out, &[flag_number(self.answering())])?;
        Ok(())
    }
}

impl ItemTable {
    /// How many items a directory, or the top, has a record of.
    fn count_recorded(&self, top: bool) -> u32
        requires { length self.now < 2 ^ 32 }
        ensures { result ≡ count_by (is_recorded top) self.now }
    {
        let mut count = 0;
        for item in 0..self.packed().len() as u32 {
            if self.at(ItemId(item)).is_recorded(top) {
                count += 1;
            }
        }
        count
    }

    /// Puts the records of a directory, or of the top, at the end, with how many there are before them.
    #[tactic(auto, unfolding(crate::specs::Opened::records_from, crate::specs::Opened::records))]
    pub fn write(&self, top: bool, out: &mut Vec<u32>) -> Result<(), NoMemory>
        requires { length self.now < 2 ^ 32 }
        ensures ok { OnOk result (Adds out.old.items out.new.items (records top self.now)) }
        ensures err { OnErr result (Begins out.old.items out.new.items) }
    {
        push_words(out, &[self.count_recorded(top)])?;
        for item in 0..self.packed().len() as u32 {
            self.at(ItemId(item)).write(ItemId(item), top, out)?;
        }
        Ok(())
    }
}

impl<const WORDS: usize> DirState<WORDS> {
    /// Puts its words at the end.
    pub fn write_part(&self, out: &mut Vec<u32>) -> Result<(), NoMemory>
        ensures ok { OnOk result (Adds out.old.items out.new.items (dir_words self.now)) }
        ensures err { OnErr result (Begins out.old.items out.new.items) }
    {
        push_words(out, &[self.count])?;
        push_words(out, &stamp_words(self.epoch))?;
        self.kept.write(false, out)?;
        self.down.write(out)?;
        self.requests.write(out)?;
        self.replies.write(out)?;
        self.parking.write(out)?;
        push_words(out, &[self.parking.reserved()])?;
        Ok(())
    }
}
