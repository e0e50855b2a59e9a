//! A hart of the flat machine, with its reservation.

ghost use Rattle.std.specs.Prelude.{◌≡◌, ◌+◌, ◌*◌, ◌<◌, ◌≤◌, None, Some, IfOk, map};
ghost use Rattle.std.specs.List.{range_with_len};
ghost use Rattle.rv_flat.specs.FlatModel.Hart.{ask_of, finish_of, register};
ghost use Rattle.rv_flat.specs.FlatModel.Flat.{flat_hart_start, has_reserved, without_reserved};
ghost use Rattle.rv_hart.specs.Steps.{IsReady};
ghost use Rattle.rv_flat.specs.Asks.{next_ask};
ghost use Rattle.rv_flat.specs.Registers.{IsHart};

use crate::of_ddm_types::{Code, Effect, HaltCause, HartNo, ItemId, Items, NoMemory, Start, Words};
use crate::of_rv_decode::Reg;
use rv_hart::{Ask, Hart};
use std::alloc::Global;
use std::marker::Model;

/// A hart, and the item that it has reserved.
#[derive(Drop)]
pub struct FlatHart {
    hart: Hart,
    reserved: Option<ItemId>,
}

impl Model for FlatHart {
    ghost use Rattle.rv_flat.specs.FlatModel.Flat.{FlatHart as FlatHartValue};
    ghost use Rattle.rv_flat.specs.Registers.{IsHart};

    ghost Value = { FlatHartValue };

    ghost view = { λ g. record { hart = g.hart.hart; reserved = g.reserved } };

    ghost invariant = { λ g. IsHart g.hart.hart };
}

/// The same hart, with the count of its instructions begun anew.
fn with_count_anew(hart: &Hart) -> Hart
    requires { IsHart hart.now.hart }
    ensures hart { result.hart ≡ hart.now.hart }
    ensures done { result.done ≡ 0 }
{
    let mut registers = [0; 32];
    for number in 0..32u8 {
        registers[number as usize] = hart.register(Reg(number));
    }
    Hart::restore(registers, hart.pc(), 0, hart.halted())
}

/// Begins the count of a hart's instructions anew where it can't go on.
fn make_room_to_count(hart: &mut Hart)
    requires { IsHart hart.old.hart }
    ensures hart { hart.new.hart ≡ hart.old.hart }
    ensures done { hart.new.done < 4294967295 }
{
    if hart.done() == u32::MAX {
        *hart = with_count_anew(hart);
    }
}

impl FlatHart {
    /// The hart with this number at its start.
    pub fn new(hart: HartNo, start: Start) -> FlatHart
        requires number { hart < start.harts }
        requires harts { start.harts ≤ 64 }
        requires stacks { start.stack_base + start.harts * start.stack_bytes ≤ 4294967280 }
        ensures { result ≡ flat_hart_start start hart }
    {
        FlatHart {
            hart: Hart::new(hart, start),
            reserved: None,
        }
    }

    pub fn register(&self, reg: Reg) -> u32
        ensures { result ≡ register self.now.hart reg }
    {
        self.hart.register(reg)
    }

    pub fn pc(&self) -> u32
        ensures { result ≡ self.now.hart.pc }
    {
        self.hart.pc()
    }

    pub fn halted(&self) -> Option<HaltCause>
        ensures { result ≡ self.now.hart.halt }
    {
        self.hart.halted()
    }

    pub fn reserved(&self) -> Option<ItemId>
        ensures { result ≡ self.now.reserved }
    {
        self.reserved
    }

    pub fn has_reserved(&self, item: ItemId) -> bool
        ensures { result ≡ has_reserved self.now.reserved item }
    {
        match self.reserved {
            Some(reserved) => reserved.0 == item.0,
            None => false,
        }
    }

    /// What the hart's next instruction needs. A halted hart needs nothing but its halt.
    pub fn next_ask(&self, code: &Code, items: &Items) -> Ask
        ensures { result ≡ next_ask code.now items.now self.now }
    {
        match self.hart.halted() {
            Some(cause) => Ask::Halt(cause),
            None => self.hart.ask(code, items),
        }
    }

    /// Stops the hart. Nothing else changes.
    pub fn halt(&mut self, cause: HaltCause)
        ensures { self.new ≡ record self.old { hart = record self.old.hart { halt = Some cause } } }
    {
        self.hart.halt(cause);
    }

    /// Ends the hart's reservation if it is on this item.
    pub fn free(&mut self, item: ItemId)
        ensures { self.new ≡ without_reserved item self.old }
    {
        if self.has_reserved(item) {
            self.reserved = None;
        }
    }

    /// Carries out the hart's next instruction on the words of its item, after which the hart has this
    /// item reserved. An SC stores where `sc_ok` holds.
    pub fn finish<const WORDS: usize>(
        &mut self,
        code: &Code,
        items: &Items,
        words: &mut Words<WORDS>,
        sc_ok: bool,
        reserved: Option<ItemId>,
    ) -> Effect
        requires running { self.old.hart.halt ≡ None }
        requires ready { IsReady (ask_of code.now items.now self.old.hart) }
        requires size { 4 * WORDS ≡ items.now.size }
        ensures effect { result ≡ (finish_of code.now items.now self.old.hart words.old sc_ok).effect }
        ensures hart { self.new ≡ record { hart = (finish_of code.now items.now self.old.hart words.old sc_ok).hart; reserved = reserved } }
        ensures words { words.new ≡ (finish_of code.now items.now self.old.hart words.old sc_ok).words }
    {
        make_room_to_count(&mut self.hart);
        self.reserved = reserved;
        self.hart.finish(code, items, words, sc_ok)
    }
}

/// Ends each hart's reservation on this item.
pub fn free_all(harts: &mut [FlatHart], item: ItemId)
    ensures { harts.new ≡ map (without_reserved item) harts.old }
{
    for hart in harts {
        hart.free(item);
    }
}

/// All harts at their start.
pub fn harts_at_start(alloc: Global, start: Start) -> Result<Vec<FlatHart>, NoMemory>
    requires harts { start.harts ≤ 64 }
    requires stacks { start.stack_base + start.harts * start.stack_bytes ≤ 4294967280 }
    ensures { IfOk result (λ harts. harts.items ≡ map (flat_hart_start start) (range_with_len 0 start.harts)) }
{
    let mut harts = Vec::new(alloc);
    for hart in 0..start.harts {
        harts.push(FlatHart::new(HartNo(hart), start))?;
    }
    Ok(harts)
}
