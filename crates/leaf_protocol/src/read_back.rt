//! The words of a leaf are read back.

ghost use Rattle.std.specs.Prelude.{◌≡◌, ℕ, ◌<◌, ◌≤◌, ◌^◌, ◌+◌, [], Ok, Err, drop, length, map, nat_eq, nat_lt};
ghost use Rattle.std.specs.Prelude.{option_map, slice_index, if◌then◌else◌, IfErr, IfOk, IfSome, OnOk};
ghost use Rattle.tx_queue.specs.QueueList.{AllBelow};
ghost use Rattle.leaf_protocol.specs.StateReading.Gives.{Gives, IsRead};
ghost use Rattle.leaf_protocol.specs.StateReading.Reading.{any_word, times, word_that, words_that};
ghost use Rattle.leaf_protocol.specs.StateReading.Parts.{halt_has_number, read_copy, read_hart, read_leaf};
ghost use Rattle.leaf_protocol.specs.StateReading.Parts.{reserved_of, slot_fits, slot_of, slot_state_fits};
ghost use Rattle.leaf_protocol.specs.Leaf.{copied_item, copy_value, request_value};

use crate::leaf::Leaf;
use crate::of_ddm_types::{ItemId, LeafState, TxKind, Words};
use crate::of_state_reading::{
    StateRefusal, any_word, count_word, halt_of, item_words, keep, look, word_below, word_if,
    word_to, words_if,
};
use crate::replies::Replies;
use reservations::Reservation;
use rv_hart::Hart;

/// The item of a reservation by its word, which is the item plus 1, or 0 for none.
fn reserved_of(word: u32) -> Reservation
    ensures value { result ≡ reserved_of word }
    ensures inside { (n : ℕ) → word ≤ n → IfSome result (λ x. x < n) }
{
    let mut reservation = Reservation::new();
    if word > 0 {
        reservation.set(ItemId(word - 1));
    }
    reservation
}

/// The next word, the item of a slot with this number.
fn asked_word(words: &[u32], at: &mut u32, items: u32, code: u32) -> Result<u32, StateRefusal>
    requires few { length words.now < 2 ^ 32 }
    requires inside { at.old ≤ length words.now }
    ensures read { Gives
        (word_that (λ x. if nat_eq code 0 then nat_eq x 0 else nat_lt x items) at.old (drop at.old words.now))
        words.now at.new result }
    ensures below { IfOk result (λ x. 0 < code → x < items) }
    ensures inside { at.new ≤ length words.now }
{
    let item = look(words, *at)?;
    let fits = if code == 0 { item == 0 } else { item < items };
    keep(item, fits, at)
}

/// The slot by its number, 0 to 2, and its item.
fn slot_of(code: u32, item: u32) -> Option<(TxKind, ItemId)>
    requires { code ≤ 2 }
    ensures value { option_map request_value result ≡ slot_of code item }
    ensures inside { (n : ℕ) → (0 < code → item < n) → IfSome result (λ r. r.1 < n) }
{
    match code {
        1 => Some((TxKind::ReadTx, ItemId(item))),
        2 => Some((TxKind::EraseTx, ItemId(item))),
        _ => None,
    }
}

/// Whether an entry in this state waits for what is asked for.
fn slot_state_fits(kind: TxKind, state: Option<LeafState>) -> bool
    ensures { result ≡ slot_state_fits kind state }
{
    match (kind, state) {
        (TxKind::ReadTx, Some(LeafState::Reading | LeafState::ReadingWaiting)) => true,
        (TxKind::EraseTx, Some(LeafState::Waiting)) => true,
        _ => false,
    }
}

/// Reads one more copy, and puts it behind the others.
fn read_reply<const WORDS: usize>(
    words: &[u32],
    at: &mut u32,
    items: u32,
    replies: &mut Replies<WORDS>,
) -> Result<(), StateRefusal>
    requires few { length words.now < 2 ^ 32 }
    requires inside { at.old ≤ length words.now }
    requires words_fit { WORDS < 2 ^ 32 }
    requires items { replies.old.items ≡ items }
    requires place { length replies.old.list < replies.old.capacity }
    requires below { AllBelow copied_item items replies.old.list }
    ensures read { OnOk result
        (read_copy WORDS (λ x cs. nat_lt x items) (map copy_value replies.old.list) at.old
        (drop at.old words.now)
        ≡ Ok (record { value = map copy_value replies.new.list; at = at.new; rest = drop at.new words.now })) }
    ensures refused { IfErr result
        (λ e. read_copy WORDS (λ x cs. nat_lt x items) (map copy_value replies.old.list) at.old
        (drop at.old words.now)
        ≡ Err e) }
    ensures below { AllBelow copied_item items replies.new.list }
    ensures count { length replies.new.list ≤ length replies.old.list + 1 }
    ensures capacity { replies.new.capacity ≡ replies.old.capacity }
    ensures items { replies.new.items ≡ replies.old.items }
    ensures inside { at.new ≤ length words.now }
{
    let item = word_below(words, at, items)?;
    let copy = item_words(words, at, true)?;
    replies.put((ItemId(item), copy));
    Ok(())
}

/// Reads so many copies, in place of those that are there.
fn read_replies<const WORDS: usize>(
    words: &[u32],
    at: &mut u32,
    items: u32,
    count: u32,
    replies: &mut Replies<WORDS>,
) -> Result<(), StateRefusal>
    requires few { length words.now < 2 ^ 32 }
    requires inside { at.old ≤ length words.now }
    requires words_fit { WORDS < 2 ^ 32 }
    requires items { replies.old.items ≡ items }
    requires places { count ≤ replies.old.capacity }
    ensures read { OnOk result
        (times (read_copy WORDS (λ x cs. nat_lt x items)) count [] at.old (drop at.old words.now)
        ≡ Ok (record { value = map copy_value replies.new.list; at = at.new; rest = drop at.new words.now })) }
    ensures refused { IfErr result (λ e. times (read_copy WORDS (λ x cs. nat_lt x items)) count [] at.old (drop at.old words.now) ≡ Err e) }
    ensures below { AllBelow copied_item items replies.new.list }
    ensures capacity { replies.new.capacity ≡ replies.old.capacity }
    ensures items { replies.new.items ≡ replies.old.items }
    ensures inside { at.new ≤ length words.now }
{
    replies.clear();
    'copies: for done in 0..count {
        read_reply(words, at, items, replies)?;
    }
    Ok(())
}

/// The registers of a hart but the first, which is always 0.
fn read_registers(words: &[u32], at: &mut u32) -> Result<[u32; 32], StateRefusal>
    requires few { length words.now < 2 ^ 32 }
    requires inside { at.old ≤ length words.now }
    ensures zero { IfOk result (λ registers. slice_index registers 0 ≡ 0) }
    ensures read { IfOk result
        (λ registers. words_that any_word 31 at.old (drop at.old words.now)
        ≡ Ok (record { value = drop 1 registers; at = at.new; rest = drop at.new words.now })) }
    ensures refused { IfErr result (λ e. words_that any_word 31 at.old (drop at.old words.now) ≡ Err e) }
    ensures inside { at.new ≤ length words.now }
{
    let mut registers = [0; 32];
    words_if(words, at, true, &mut registers[1..])?;
    Ok(registers)
}

/// Whether a number belongs to this reason to stop.
fn has_number(code: u32) -> bool
    ensures { result ≡ halt_has_number code }
{
    code != 0 && code != 3
}

impl<const WAYS: usize, const WORDS: usize> Leaf<WAYS, WORDS> {
    /// Reads the words of its hart, and answers the number of the word behind them.
    #[tactic(auto, unfolding(crate::specs::Opened::read_hart))]
    pub fn read_hart(&mut self, words: &[u32], from: u32) -> Result<u32, StateRefusal>
        requires few { length words.now < 2 ^ 32 }
        requires inside { from ≤ length words.now }
        ensures read { IsRead (read_hart self.old from (drop from words.now)) words.now self.new result }
        ensures inside { IfOk result (λ at. at ≤ length words.now) }
    {
        let mut at = from;
        let registers = read_registers(words, &mut at)?;
        let pc = any_word(words, &mut at)?;
        let done = count_word(words, &mut at)?;
        let code = word_to(words, &mut at, 9)?;
        let number = word_if(words, &mut at, has_number(code))?;
        self.hart = Hart::restore(registers, pc, done, halt_of(code, number));
        Ok(at)
    }

    /// How many items there are.
    fn items(&self) -> u32
        ensures { result ≡ length self.now.ways }
    {
        self.entries.items()
    }

    /// Whether its slot asks for what its item's entry waits for.
    fn slot_fits(&self) -> bool
        ensures { result ≡ slot_fits self.now self.now.slot }
    {
        match self.slot {
            Some((kind, item)) => slot_state_fits(kind, self.entries.state(item)),
            None => true,
        }
    }

    /// Reads its words but those of its hart, and answers the number of the word behind them.
    #[tactic(auto, using(crate::proofs::ReadBack::leaf_read))]
    pub fn read_part(&mut self, words: &[u32], from: u32) -> Result<u32, StateRefusal>
        requires few { length words.now < 2 ^ 32 }
        requires inside { from ≤ length words.now }
        ensures read { IsRead (read_leaf (length self.old.ways) self.old from (drop from words.now)) words.now self.new result }
        ensures inside { IfOk result (λ at. at ≤ length words.now) }
    {
        let mut at = from;
        let items = self.items();
        let reserved = word_to(words, &mut at, items)?;
        let code = word_to(words, &mut at, 2)?;
        let asked = asked_word(words, &mut at, items, code)?;
        let whole = self.entries.read(words, &mut at)?;
        let replied = word_to(words, &mut at, self.replies.capacity())?;
        read_replies(words, &mut at, items, replied, &mut self.replies)?;
        self.slot = slot_of(code, asked);
        self.reservation = reserved_of(reserved);
        if !whole || !self.slot_fits() {
            return Err(StateRefusal::BrokenLeaf(self.number().0));
        }
        Ok(at)
    }
}
