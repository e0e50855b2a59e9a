//! What a directory keeps of an item, in one word.

ghost use Rattle.std.specs.Prelude.{◌≡◌, ℕ, ◌<◌, ◌^◌, Bool, Option};
ghost use Rattle.directory.specs.TreeModel.State.Values.{DirItem, absent_item};
ghost use Rattle.directory.specs.TreeModel.State.Directory.{is_up_read, note_why, joined_by};
ghost use Rattle.directory.specs.ItemStates.Parts.{note_of, joined_in, NamesChild};
ghost use Rattle.directory.specs.Packed.{hold_bits, note_bits, answering_bits, packed_item, unpacked_item, hold_in};
ghost use Rattle.directory.specs.Packed.{noted, note_in, note_with, IsPacked};

use crate::of_ddm_types::{ChildNo, Hold, PendingWhy};
use std::marker::Model;

/// What a directory keeps of an item, as one word.
#[derive(Clone, Copy)]
pub(crate) struct PackedItem {
    word: u32,
}

impl Model for PackedItem {
    ghost use Rattle.directory.specs.TreeModel.State.Values.{DirItem};
    ghost use Rattle.directory.specs.Packed.{packed_item, unpacked_item, IsPacked};
    ghost use Rattle.std.proofs.Common.{ap};

    ghost Value = { DirItem };

    ghost view = { λ i. unpacked_item i.word };

    ghost invariant = { λ i. IsPacked i.word };

    ghost inverse = { λ i. record { word = packed_item i } };

    ghost inverse_ok = { λ a h. ap (λ w. record a { word = w }) h.same };
}

fn hold_part(hold: Hold) -> u32
    ensures { result ≡ hold_bits hold }
{
    match hold {
        Hold::Invalid => 0,
        Hold::Shared => 1,
        Hold::Exclusive => 2,
    }
}

fn noted(kind: u32, child: ChildNo, joined: u16) -> u32
    requires kind { kind < 4 }
    requires child { child < 16 }
    ensures { result ≡ noted kind child joined }
{
    4 * kind + 16 * child.0 + 65536 * joined as u32
}

fn why_part(why: PendingWhy, joined: u16) -> u32
    requires { NamesChild (note_of (Some why)) }
    ensures { result ≡ note_bits (note_with (Some why) joined) }
{
    match why {
        PendingWhy::Local(first) => noted(1, first, joined),
        PendingWhy::UpRead(first) => noted(2, first, joined),
        PendingWhy::UpErase(child) => noted(3, child, 0),
        PendingWhy::Answering | PendingWhy::InDown => 0,
    }
}

fn note_part(note: Option<PendingWhy>, joined: u16) -> u32
    requires { NamesChild (note_of note) }
    ensures { result ≡ note_bits (note_with note joined) }
{
    match note {
        Some(why) => why_part(why, joined),
        None => 0,
    }
}

fn answering_part(answering: bool) -> u32
    ensures { result ≡ answering_bits answering }
{
    if answering { 256 } else { 0 }
}

fn hold_in(number: u32) -> Hold
    ensures { result ≡ hold_in number }
{
    if number == 0 {
        Hold::Invalid
    } else if number == 1 {
        Hold::Shared
    } else {
        Hold::Exclusive
    }
}

fn note_in(kind: u32, child: ChildNo) -> Option<PendingWhy>
    ensures value { (joined : ℕ) → result ≡ note_why (note_in kind child joined) }
    ensures child { child < 16 → NamesChild (note_of result) }
{
    if kind == 1 {
        Some(PendingWhy::Local(child))
    } else if kind == 2 {
        Some(PendingWhy::UpRead(child))
    } else if kind == 3 {
        Some(PendingWhy::UpErase(child))
    } else {
        None
    }
}

impl PackedItem {
    /// The item of these parts.
    pub fn new(hold: Hold, note: Option<PendingWhy>, joined: u16, answering: bool) -> Self
        requires { NamesChild (note_of note) }
        ensures { result ≡ record { hold = hold; note = note_with note joined; answering = answering } }
    {
        PackedItem {
            word: hold_part(hold) + note_part(note, joined) + answering_part(answering),
        }
    }

    /// The item of a word.
    pub fn of_word(word: u32) -> Self
        requires { IsPacked word }
        ensures { result ≡ unpacked_item word }
    {
        PackedItem { word }
    }

    pub fn word(self) -> u32
        ensures value { unpacked_item result ≡ self }
        ensures packed { IsPacked result }
    {
        self.word
    }

    #[tactic(auto, unfolding(crate::specs::Packed::unpacked_item))]
    pub fn hold(self) -> Hold
        ensures { result ≡ self.hold }
    {
        hold_in(self.word % 4)
    }

    /// The note, without the children that joined.
    #[tactic(auto, unfolding(crate::specs::Packed::unpacked_item))]
    pub fn note(self) -> Option<PendingWhy>
        ensures value { result ≡ note_why self.note }
        ensures child { NamesChild (note_of result) }
    {
        let child = ChildNo(self.word / 16 % 16);
        note_in(self.word / 4 % 4, child)
    }

    /// The children that joined the note's read: child c where bit c is set.
    pub fn joined(self) -> u16
        ensures { result ≡ joined_in self.note }
    {
        (self.word / 65536) as u16
    }

    #[tactic(auto, unfolding(crate::specs::Packed::unpacked_item))]
    pub fn answering(self) -> bool
        ensures { result ≡ self.answering }
    {
        self.word / 256 % 2 == 1
    }

    /// Whether the note is of a read that was sent up.
    pub fn is_up_read(self) -> bool
        ensures { result ≡ is_up_read self.note }
    {
        self.word / 4 % 4 == 2
    }

    pub fn with_hold(self, hold: Hold) -> Self
        ensures { result ≡ record self { hold = hold } }
    {
        PackedItem::new(hold, self.note(), self.joined(), self.answering())
    }

    /// The item with this note and nobody joined.
    pub fn with_note(self, note: Option<PendingWhy>) -> Self
        requires { NamesChild (note_of note) }
        ensures { result ≡ record self { note = note_of note } }
    {
        PackedItem::new(self.hold(), note, 0, self.answering())
    }

    /// The item with one more child that joined the note's read.
    pub fn with_joined(self, child: ChildNo) -> Self
        requires { child < 16 }
        ensures { result ≡ record self { note = joined_by child self.note } }
    {
        let joined = self.joined() | 1 << child.0;
        PackedItem::new(self.hold(), self.note(), joined, self.answering())
    }

    pub fn with_answering(self, answering: bool) -> Self
        ensures { result ≡ record self { answering = answering } }
    {
        PackedItem::new(self.hold(), self.note(), self.joined(), answering)
    }
}
