//! The flat machine.

ghost use Rattle.std.specs.Prelude.{◌≡◌, ◌+◌, ◌*◌, ◌/◌, ◌<◌, ◌≤◌, ◌&&◌, false, None, Some, IfOk, [], length, if◌then◌else◌};
ghost use Rattle.rv_flat.specs.DdmTypes.ItemTable.{IsItemSize, item_count};
ghost use Rattle.rv_flat.specs.FlatModel.Hart.{finish_of, register};
ghost use Rattle.rv_flat.specs.FlatModel.Flat.{flat_halted, flat_hart, flat_start, flat_step, has_reserved};
ghost use Rattle.rv_flat.specs.FlatModel.Flat.{item_words, leaving, machine_after, storing_to, with_change};
ghost use Rattle.rv_flat.specs.Asks.{IsOfItem, IsOfNoItem, next_ask};
ghost use Rattle.rv_flat.specs.FlatState.{HasItems, outcome_of, with_machine, word_at};
ghost use Rattle.rv_flat.specs.ItemWords.{words_by_item};

use crate::flat_hart::{FlatHart, free_all, harts_at_start};
use crate::memory::Memory;
use crate::of_ddm_types::{Code, Effect, HaltCause, HartNo, ItemId, Items, NoMemory, Start};
use crate::of_rv_decode::Reg;
use rv_hart::Ask;
use std::alloc::Global;
use std::marker::Model;

/// The flat machine: all harts over one memory. A contract sees it as the machine of the definitions, with
/// the size of an item.
#[derive(Drop)]
pub struct FlatMachine {
    harts: Vec<FlatHart>,
    memory: Memory,
}

impl Model for FlatMachine {
    ghost use Rattle.rv_flat.specs.FlatState.{FlatState};
    ghost use Rattle.rv_flat.specs.ItemWords.{memory_size, memory_words};

    ghost Value = { FlatState };

    ghost view = { λ m. record { machine = record { harts = m.harts.items; words = memory_words m.memory }; size = memory_size m.memory } };
}

impl FlatMachine {
    /// The machine at its start. `words` has the words of all items, in order of address.
    #[tactic(auto, using(crate::proofs::Outcomes::start_lengths), unfolding(crate::specs::Opened::flat_start))]
    pub fn new(
        alloc: Global,
        items: &Items,
        words: Vec<u32>,
        item_bytes: u32,
        start: Start,
    ) -> Result<FlatMachine, NoMemory>
        requires item_size { IsItemSize item_bytes }
        requires items { items.now.size ≡ item_bytes }
        requires words { item_count items.now * (item_bytes / 4) ≡ length words.items }
        requires harts { start.harts ≤ 64 }
        requires stacks { start.stack_base + start.harts * start.stack_bytes ≤ 4294967280 }
        ensures machine { let words = words_by_item (item_bytes / 4) (item_count items.now) words.items in
            IfOk result (λ made. made.machine ≡ flat_start start words) }
        ensures size { IfOk result (λ made. made.size ≡ item_bytes) }
        ensures items { IfOk result (λ made. HasItems made items.now) }
        ensures harts { IfOk result (λ made. length made.machine.harts ≡ start.harts) }
    {
        let memory = Memory::new(alloc, &words, items.len(), item_bytes)?;
        let harts = harts_at_start(alloc, start)?;
        Ok(FlatMachine { harts, memory })
    }

    /// What a hart's next instruction needs. A halted hart needs nothing but its halt.
    fn next_ask(&self, code: &Code, items: &Items, hart: HartNo) -> Ask
        requires { hart < length self.now.machine.harts }
        ensures { result ≡ next_ask code.now items.now (flat_hart self.now.machine hart) }
    {
        self.harts[hart.0 as usize].next_ask(code, items)
    }

    /// The hart's reservation after a load, or after an LR, of this item.
    fn reserved_after(&self, hart: HartNo, item: ItemId, lr: bool) -> Option<ItemId>
        requires { hart < length self.now.machine.harts }
        ensures { result ≡ (if lr then Some item else (flat_hart self.now.machine hart).reserved) }
    {
        if lr {
            Some(item)
        } else {
            self.harts[hart.0 as usize].reserved()
        }
    }

    /// Whether an SC to this item stores.
    fn lets_store(&self, hart: HartNo, item: ItemId, sc_ok: bool) -> bool
        requires { hart < length self.now.machine.harts }
        ensures { result ≡ (sc_ok && has_reserved (flat_hart self.now.machine hart).reserved item) }
    {
        sc_ok && self.harts[hart.0 as usize].has_reserved(item)
    }

    #[tactic(auto, unfolding(crate::specs::Opened::flat_halted))]
    fn halt(&mut self, hart: HartNo, cause: HaltCause)
        requires { hart < length self.old.machine.harts }
        ensures { self.new ≡ with_machine self.old (flat_halted self.old.machine hart cause) }
    {
        self.harts[hart.0 as usize].halt(cause);
    }

    /// Carries out a hart's next instruction, which needs no item.
    fn compute(&mut self, code: &Code, items: &Items, hart: HartNo) -> Effect
        requires hart { hart < length self.old.machine.harts }
        requires items { HasItems self.old items.now }
        requires ask { IsOfNoItem (next_ask code.now items.now (flat_hart self.old.machine hart)) }
        ensures effect { result ≡ (finish_of code.now items.now (flat_hart self.old.machine hart).hart [] false).effect }
        ensures machine { let done =
            finish_of code.now items.now (flat_hart self.old.machine hart).hart [] false in
            let reserved = (flat_hart self.old.machine hart).reserved in
            self.new ≡ with_machine self.old (with_change self.old.machine hart (leaving done reserved)) }
    {
        let own = &mut self.harts[hart.0 as usize];
        self.memory.finish_without(own, code, items)
    }

    /// Carries out a hart's next instruction on an item that it doesn't store to.
    fn leave(
        &mut self,
        code: &Code,
        items: &Items,
        hart: HartNo,
        item: ItemId,
        reserved: Option<ItemId>,
    ) -> Effect
        requires hart { hart < length self.old.machine.harts }
        requires items { HasItems self.old items.now }
        requires ask { IsOfItem item (next_ask code.now items.now (flat_hart self.old.machine hart)) }
        requires keeps { let done =
            finish_of code.now items.now (flat_hart self.old.machine hart).hart (item_words self.old.machine item) false in
            done.words ≡ item_words self.old.machine item }
        ensures effect { let done =
            finish_of code.now items.now (flat_hart self.old.machine hart).hart (item_words self.old.machine item) false in
            result ≡ done.effect }
        ensures machine { let done =
            finish_of code.now items.now (flat_hart self.old.machine hart).hart (item_words self.old.machine item) false in
            self.new ≡ with_machine self.old (with_change self.old.machine hart (leaving done reserved)) }
    {
        let own = &mut self.harts[hart.0 as usize];
        self.memory
            .finish_on(item, own, code, items, false, reserved)
    }

    /// Carries out a hart's next instruction, which stores to this item. Each other hart's reservation on
    /// the item ends.
    fn store(
        &mut self,
        code: &Code,
        items: &Items,
        hart: HartNo,
        item: ItemId,
        sc_ok: bool,
        reserved: Option<ItemId>,
    ) -> Effect
        requires hart { hart < length self.old.machine.harts }
        requires items { HasItems self.old items.now }
        requires ask { IsOfItem item (next_ask code.now items.now (flat_hart self.old.machine hart)) }
        ensures effect { let done =
            finish_of code.now items.now (flat_hart self.old.machine hart).hart (item_words self.old.machine item) sc_ok in
            result ≡ done.effect }
        ensures machine { let done =
            finish_of code.now items.now (flat_hart self.old.machine hart).hart (item_words self.old.machine item) sc_ok in
            self.new ≡ with_machine self.old (with_change self.old.machine hart (storing_to item done reserved)) }
    {
        free_all(&mut self.harts, item);
        let own = &mut self.harts[hart.0 as usize];
        self.memory
            .finish_on(item, own, code, items, sc_ok, reserved)
    }

    /// Carries out a hart's next instruction, and answers what it did or why the hart halts. Where `sc_ok`
    /// is false an SC fails, also where the hart still has its reservation.
    #[tactic(auto, using(crate::proofs::Outcomes::step_cases, crate::proofs::Outcomes::step_lengths))]
    pub fn step(
        &mut self,
        code: &Code,
        items: &Items,
        hart: HartNo,
        sc_ok: bool,
    ) -> Result<Effect, HaltCause>
        requires hart { hart < length self.old.machine.harts }
        requires items { HasItems self.old items.now }
        ensures outcome { result ≡ outcome_of (flat_step code.now items.now self.old.machine hart sc_ok) }
        ensures machine { let after = machine_after self.old.machine hart (flat_step code.now items.now self.old.machine hart sc_ok) in
            self.new ≡ with_machine self.old after }
        ensures items { HasItems self.new items.now }
        ensures harts { length self.new.machine.harts ≡ length self.old.machine.harts }
    {
        match self.next_ask(code, items, hart) {
            Ask::Halt(cause) => {
                self.halt(hart, cause);
                Err(cause)
            }
            Ask::Plain | Ask::Put(_) => Ok(self.compute(code, items, hart)),
            Ask::NeedsShared { item, lr } => {
                let reserved = self.reserved_after(hart, item, lr);
                Ok(self.leave(code, items, hart, item, reserved))
            }
            Ask::NeedsExclusive { item } => {
                let reserved = self.reserved_after(hart, item, false);
                Ok(self.store(code, items, hart, item, false, reserved))
            }
            Ask::Conditional { item } => {
                if self.lets_store(hart, item, sc_ok) {
                    Ok(self.store(code, items, hart, item, true, None))
                } else {
                    Ok(self.leave(code, items, hart, item, None))
                }
            }
        }
    }

    pub fn register(&self, hart: HartNo, reg: Reg) -> u32
        requires { hart < length self.now.machine.harts }
        ensures { result ≡ register (flat_hart self.now.machine hart).hart reg }
    {
        self.harts[hart.0 as usize].register(reg)
    }

    pub fn pc(&self, hart: HartNo) -> u32
        requires { hart < length self.now.machine.harts }
        ensures { result ≡ (flat_hart self.now.machine hart).hart.pc }
    {
        self.harts[hart.0 as usize].pc()
    }

    /// The aligned word that has the byte at this address, where an item has it.
    pub fn word(&self, items: &Items, address: u32) -> Option<u32>
        requires { HasItems self.now items.now }
        ensures { result ≡ word_at items.now self.now.machine address }
    {
        let item = items.find(address)?;
        let place = (address - items.address(item)) / 4;
        Some(self.memory.word(item, place as usize))
    }

    /// Why the hart stopped, if it did.
    pub fn halted(&self, hart: HartNo) -> Option<HaltCause>
        requires { hart < length self.now.machine.harts }
        ensures { result ≡ (flat_hart self.now.machine hart).hart.halt }
    {
        self.harts[hart.0 as usize].halted()
    }
}
