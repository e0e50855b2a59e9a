//! The words of a directory are read back.

ghost use Rattle.std.specs.Prelude.{◌≡◌, ℕ, ◌<◌, ◌≤◌, ◌^◌, ◌+◌, ◌&&◌, ◌||◌, not, nat_eq, nat_le, nat_lt, false, []};
ghost use Rattle.std.specs.Prelude.{None, Some, Ok, Err, drop, length, map, replicate, IfErr, IfOk, OnOk};
ghost use Rattle.std.specs.Prelude.{if◌then◌else◌};
ghost use Rattle.directory.specs.TreeModel.State.Values.{absent_item};
ghost use Rattle.directory.specs.ItemStates.Parts.{note_of, NamesChild};
ghost use Rattle.directory.specs.StateWords.Parts.{is_recorded};
ghost use Rattle.directory.specs.StateReading.Gives.{Gives, IsRead};
ghost use Rattle.directory.specs.StateReading.Reading.{and_then, any_word, times, word_that};
ghost use Rattle.directory.specs.StateReading.Parts.{at_rest, comes_after, hold_of, joins_fit, note_of_words};
ghost use Rattle.directory.specs.StateReading.Parts.{read_dir, read_record, read_records, word_to};
ghost use Rattle.directory.specs.Packed.{note_with};

use crate::of_ddm_types::{ChildNo, Hold, ItemId, PendingWhy};
use crate::of_state_reading::{
    StateRefusal, any_word, count_word, hold_of, keep, look, stamp_words, word_to,
};
use crate::packed::PackedItem;
use crate::state::DirState;
use crate::table::ItemTable;

/// The note by its number, 0 to 3, and its child.
fn note_of_words(kind: u32, child: u32) -> Option<PendingWhy>
    requires kind { kind ≤ 3 }
    requires child { child < 16 }
    ensures value { (joined : ℕ) → note_with result joined ≡ note_of_words kind child joined }
    ensures child { NamesChild (note_of result) }
{
    let child = ChildNo(child);
    match kind {
        1 => Some(PendingWhy::Local(child)),
        2 => Some(PendingWhy::UpRead(child)),
        3 => Some(PendingWhy::UpErase(child)),
        _ => None,
    }
}

/// Whether these of so many children may have joined this child's read.
fn joins_fit(children: u32, child: u32, joined: u32) -> bool
    requires few { children ≤ 16 }
    requires child { child < 16 }
    ensures { result ≡ joins_fit children child joined }
{
    joined < 1 << children && !(joined >> child & 1 == 1)
}

fn comes_after(item: u32, last: Option<ItemId>) -> bool
    ensures { result ≡ comes_after item last }
{
    match last {
        Some(last) => last.0 < item,
        None => true,
    }
}

/// The next word, an item behind the last one that has a record.
fn item_word(
    words: &[u32],
    at: &mut u32,
    items: u32,
    last: Option<ItemId>,
) -> Result<u32, StateRefusal>
    requires few { length words.now < 2 ^ 32 }
    requires inside { at.old ≤ length words.now }
    ensures read { Gives (word_that (λ x. nat_lt x items && comes_after x last) at.old (drop at.old words.now)) words.now at.new result }
    ensures below { IfOk result (λ x. x < items) }
    ensures inside { at.new ≤ length words.now }
{
    let item = look(words, *at)?;
    keep(item, item < items && comes_after(item, last), at)
}

/// The next word, what is held of an item: of the top's always 2.
fn hold_word(words: &[u32], at: &mut u32, top: bool) -> Result<u32, StateRefusal>
    requires few { length words.now < 2 ^ 32 }
    requires inside { at.old ≤ length words.now }
    ensures read { Gives (word_that (λ w. if top then nat_eq w 2 else nat_le w 2) at.old (drop at.old words.now)) words.now at.new result }
    ensures most { IfOk result (λ w. w ≤ 2) }
    ensures inside { at.new ≤ length words.now }
{
    let hold = look(words, *at)?;
    keep(hold, if top { hold == 2 } else { hold <= 2 }, at)
}

/// The next word, the child of a note of this kind.
fn child_word(words: &[u32], at: &mut u32, kind: u32, children: u32) -> Result<u32, StateRefusal>
    requires few { length words.now < 2 ^ 32 }
    requires inside { at.old ≤ length words.now }
    requires children { children ≤ 16 }
    ensures read { Gives
        (word_that (λ w. if nat_eq kind 0 then nat_eq w 0 else nat_lt w children) at.old (drop at.old words.now))
        words.now at.new result }
    ensures below { IfOk result (λ w. w < 16) }
    ensures inside { at.new ≤ length words.now }
{
    let child = look(words, *at)?;
    keep(
        child,
        if kind == 0 {
            child == 0
        } else {
            child < children
        },
        at,
    )
}

/// The next word, the children that joined a note of this kind of this child.
fn joined_word(
    words: &[u32],
    at: &mut u32,
    kind: u32,
    children: u32,
    child: u32,
) -> Result<u32, StateRefusal>
    requires few { length words.now < 2 ^ 32 }
    requires inside { at.old ≤ length words.now }
    requires children { children ≤ 16 }
    requires child { child < 16 }
    ensures read { Gives
        (word_that (λ w. if nat_eq kind 1 || nat_eq kind 2 then joins_fit children child w else nat_eq w 0)
        at.old (drop at.old words.now)) words.now at.new result }
    ensures below { IfOk result (λ w. w < 65536) }
    ensures inside { at.new ≤ length words.now }
{
    let joined = look(words, *at)?;
    keep(
        joined,
        if kind == 1 || kind == 2 {
            joins_fit(children, child, joined)
        } else {
            joined == 0
        },
        at,
    )
}

/// The next word, 0 or 1, with which an item's record ends: whether it is answering. The top answers for none, and what has a
/// record has something to say.
fn kept_word(
    words: &[u32],
    at: &mut u32,
    top: bool,
    blank: PackedItem,
) -> Result<PackedItem, StateRefusal>
    requires few { length words.now < 2 ^ 32 }
    requires inside { at.old ≤ length words.now }
    requires blank { blank.answering ≡ false }
    ensures read { IfOk result
        (λ i. (w : ℕ)
        × (word_that
        (λ w. nat_le w 1 && (not top || nat_eq w 0)
        && is_recorded top (record blank { answering = nat_eq w 1 })) at.old (drop at.old words.now)
        ≡ Ok (record { value = w; at = at.new; rest = drop at.new words.now }))
        × (i ≡ record blank { answering = nat_eq w 1 })) }
    ensures refused { IfErr result
        (λ e. word_that
        (λ w. nat_le w 1 && (not top || nat_eq w 0)
        && is_recorded top (record blank { answering = nat_eq w 1 })) at.old (drop at.old words.now)
        ≡ Err e) }
    ensures inside { at.new ≤ length words.now }
{
    let answering = look(words, *at)?;
    let kept = blank.with_answering(answering == 1);
    keep(
        answering,
        answering <= 1 && (!top || answering == 0) && kept.is_recorded(top),
        at,
    )?;
    Ok(kept)
}

/// What is held of an item that has no record.
fn hold_at_rest(top: bool) -> Hold
    ensures { record absent_item { hold = result } ≡ at_rest top }
{
    if top { Hold::Exclusive } else { Hold::Invalid }
}

impl ItemTable {
    /// Reads the record of one more item, behind that of the last one.
    fn read_record(
        &mut self,
        words: &[u32],
        at: &mut u32,
        children: u32,
        top: bool,
        last: Option<ItemId>,
    ) -> Result<ItemId, StateRefusal>
        requires few { length words.now < 2 ^ 32 }
        requires inside { at.old ≤ length words.now }
        requires items { length self.old < 2 ^ 32 }
        requires children { children ≤ 16 }
        ensures read { IfOk result
            (λ x. read_record (length self.old) children top (record { last = last; items = self.old }) at.old
            (drop at.old words.now)
            ≡ Ok (record {
              value = record { last = Some x; items = self.new };
              at = at.new;
              rest = drop at.new words.now;
            })) }
        ensures refused { IfErr result
            (λ e. read_record (length self.old) children top (record { last = last; items = self.old }) at.old
            (drop at.old words.now)
            ≡ Err e) }
        ensures inside { at.new ≤ length words.now }
        ensures items { length self.new ≡ length self.old }
    {
        let item = item_word(words, at, self.len() as u32, last)?;
        let hold = hold_word(words, at, top)?;
        let kind = word_to(words, at, 3)?;
        let child = child_word(words, at, kind, children)?;
        let joined = joined_word(words, at, kind, children, child)?;
        let note = note_of_words(kind, child);
        let blank = PackedItem::new(hold_of(hold), note, joined as u16, false);
        let kept = kept_word(words, at, top, blank)?;
        self.put(ItemId(item), kept);
        Ok(ItemId(item))
    }

    /// Reads the records of a directory, or of the top, with how many there are before them. Gives the last item that has one.
    pub fn read(
        &mut self,
        words: &[u32],
        at: &mut u32,
        children: u32,
        top: bool,
    ) -> Result<Option<ItemId>, StateRefusal>
        requires few { length words.now < 2 ^ 32 }
        requires inside { at.old ≤ length words.now }
        requires items { length self.old < 2 ^ 32 }
        requires children { children ≤ 16 }
        ensures read { IfOk result
            (λ last. read_records (length self.old) children top at.old (drop at.old words.now)
            ≡ Ok (record {
              value = record { last = last; items = self.new };
              at = at.new;
              rest = drop at.new words.now;
            })) }
        ensures refused { IfErr result (λ e. read_records (length self.old) children top at.old (drop at.old words.now) ≡ Err e) }
        ensures inside { at.new ≤ length words.now }
        ensures items { length self.new ≡ length self.old }
    {
        let count = any_word(words, at)?;
        self.clear(hold_at_rest(top));
        let mut last = None;
        for _number in 0..count {
            last = Some(self.read_record(words, at, children, top, last)?);
        }
        Ok(last)
    }
}

impl<const WORDS: usize> DirState<WORDS> {
    /// Reads its words, from number `from` on, in place of all that it has, where its bus has so many children. Gives the number of
    /// the word behind them. After a refusal it has some of them.
    pub fn read_part(
        &mut self,
        words: &[u32],
        from: u32,
        children: u32,
    ) -> Result<u32, StateRefusal>
        requires few { length words.now < 2 ^ 32 }
        requires inside { from ≤ length words.now }
        requires children { children ≤ 16 }
        ensures read { IsRead (read_dir (length self.old.items) children self.old from (drop from words.now)) words.now self.new result }
        ensures inside { IfOk result (λ at. at ≤ length words.now) }
    {
        let mut at = from;
        let items = self.kept.len() as u32;
        self.count = count_word(words, &mut at)?;
        self.epoch = stamp_words(words, &mut at, self.level)?;
        self.kept.read(words, &mut at, children, false)?;
        self.down.read_entries(words, &mut at, self.level)?;
        self.down_places.tell(&self.down);
        self.requests.read_requests(words, &mut at)?;
        self.request_places.tell(&self.requests);
        self.replies.read_copies(words, &mut at)?;
        self.parking.read(words, &mut at, items)?;
        let reserved = word_to(words, &mut at, self.parking.room())?;
        self.parking.keep(reserved);
        Ok(at)
    }
}
