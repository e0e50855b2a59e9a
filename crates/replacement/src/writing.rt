//! The words of buffer and parking.

ghost use Rattle.std.specs.Prelude.{◌<◌, ◌^◌, length, OnErr, OnOk};
ghost use Rattle.replacement.specs.DdmText.Adds.{Adds};
ghost use Rattle.replacement.specs.StateWords.Begins.{Begins};
ghost use Rattle.replacement.specs.StateWords.Parts.{buffer_words, counted, item_and_words};

use crate::arrivals::Arrivals;
use crate::buffer::Buffer;
use crate::entries::{BufferEntry, ParkedCopy};
use crate::of_ddm_types::NoMemory;
use crate::of_state_words::{Spelled, push_words, state_number};
use crate::parking::Parking;

impl<const WORDS: usize> Spelled for BufferEntry<WORDS> {
    ghost words = { buffer_words };

    fn spell(&self, out: &mut Vec<u32>) -> Result<(), NoMemory> {
        push_words(out, &[self.item.0, state_number(self.state)])?;
        push_words(out, &self.words.w)
    }
}

impl<const WORDS: usize> Spelled for ParkedCopy<WORDS> {
    ghost words = { item_and_words };

    fn spell(&self, out: &mut Vec<u32>) -> Result<(), NoMemory> {
        push_words(out, &[self.item.0])?;
        push_words(out, &self.words.w)
    }
}

impl<T: Copy + Spelled> Arrivals<T> {
    /// Puts the words of its entries at the end, with how many there are before them.
    pub fn write(&self, out: &mut Vec<u32>) -> Result<(), NoMemory>
        requires { length self.now.list < 2 ^ 32 }
        ensures ok { OnOk result (Adds out.old.items out.new.items (counted T.words self.now.list)) }
        ensures err { OnErr result (Begins out.old.items out.new.items) }
    {
        push_words(out, &[self.len() as u32])?;
        for index in 0..self.len() {
            self.at(index).spell(out)?;
        }
        Ok(())
    }
}

impl<const WORDS: usize> Buffer<WORDS> {
    /// Puts the words of its entries at the end, with how many there are before them.
    pub fn write(&self, out: &mut Vec<u32>) -> Result<(), NoMemory>
        ensures ok { OnOk result (Adds out.old.items out.new.items (counted buffer_words self.now.list)) }
        ensures err { OnErr result (Begins out.old.items out.new.items) }
    {
        self.entries.write(out)
    }
}

impl<const WORDS: usize> Parking<WORDS> {
    /// Puts the words of its copies at the end, with how many there are before them.
    pub fn write(&self, out: &mut Vec<u32>) -> Result<(), NoMemory>
        ensures ok { OnOk result (Adds out.old.items out.new.items (counted item_and_words self.now.list)) }
        ensures err { OnErr result (Begins out.old.items out.new.items) }
    {
        self.entries.write(out)
    }
}
