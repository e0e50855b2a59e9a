//! What an instruction does, as far as that is known before the words of its item are.
ghost use Rattle.std.specs.Prelude.{◌≡◌, ℕ, ◌*◌, ◌<◌, Some};
ghost use Rattle.rv_hart.specs.DdmTypes.ItemTable.{item_at};
ghost use Rattle.flat_model.specs.Hart.{ask_by, access_in, aligned, jump, next_pc, with_register, byte_place};
ghost use Rattle.flat_model.specs.Hart.{word_address, load_at, store_at, load_bytes, store_bytes, Loads, Stores};
ghost use Rattle.flat_model.specs.Hart.{Reserves, StoresIfReserved, Changes, HartValue};
ghost use Rattle.rv_hart.specs.Steps.{load_item, store_item, access_value, action_by, IsInside};

use crate::bytes::{load_bytes, store_bytes};
use crate::of_ddm_types::{HaltCause, ItemId, Items};
use crate::of_rv_decode::{AmoOp, LoadOp, Reg, StoreOp};
use flat_model::Ask;

/// A byte address, its item, and which word of the item it is in.
#[derive(Clone, Copy)]
pub struct Access {
    pub address: u32,
    pub item: ItemId,
    pub place: usize,
}

impl Access {
    /// The address of the aligned word.
    pub fn word_address(&self) -> u32
        ensures { result ≡ word_address (access_value self.now) }
    {
        self.address / 4 * 4
    }

    /// The place of the byte in its word.
    pub fn byte_place(&self) -> usize
        ensures { result ≡ byte_place (access_value self.now) }
    {
        (self.address % 4) as usize
    }
}

/// The hart halts, goes on, writes a register and goes on, jumps, jumps and puts the pc behind the
/// instruction into a register, puts out a byte, or has an access.
#[derive(Clone, Copy)]
pub enum Step {
    Halt(HaltCause),
    Advance,
    Write(Reg, u32),
    Jump(u32),
    Link(Reg, u32),
    Put(u8),
    Load(LoadOp, Reg, Access),
    Store(StoreOp, u32, Access),
    Reserve(Reg, Access),
    StoreIfReserved(Reg, u32, Access),
    Change(AmoOp, Reg, u32, Access),
}

impl Step {
    /// What it needs.
    pub fn ask(&self) -> Ask
        ensures { (h : HartValue) → result ≡ ask_by (action_by h self.now) }
    {
        match *self {
            Step::Halt(cause) => Ask::Halt(cause),
            Step::Advance | Step::Write(..) | Step::Jump(_) | Step::Link(..) => Ask::Plain,
            Step::Put(byte) => Ask::Put(byte),
            Step::Load(_, _, access) => Ask::NeedsShared {
                item: access.item,
                lr: false,
            },
            Step::Reserve(_, access) => Ask::NeedsShared {
                item: access.item,
                lr: true,
            },
            Step::StoreIfReserved(_, _, access) => Ask::Conditional { item: access.item },
            Step::Store(_, _, access) | Step::Change(_, _, _, access) => Ask::NeedsExclusive {
                item: access.item,
            },
        }
    }
}

/// The item that a load of so many bytes at this address reads.
fn load_item(items: &Items, bytes: u32, address: u32) -> Result<ItemId, HaltCause>
    requires { 0 < bytes }
    ensures { result ≡ load_item items.now bytes address }
{
    if address % bytes != 0 {
        return Err(HaltCause::MisalignedAccess(address));
    }
    items.find(address).ok_or(HaltCause::LoadOutside(address))
}

/// The item that a store of so many bytes at this address writes.
#[tactic(auto, using(flat_model::proofs::Items::item_at_inside))]
fn store_item(items: &Items, bytes: u32, address: u32) -> Result<ItemId, HaltCause>
    requires { 0 < bytes }
    ensures { result ≡ store_item items.now bytes address }
{
    if address % bytes != 0 {
        return Err(HaltCause::MisalignedAccess(address));
    }
    match items.find(address) {
        Some(item) if items.writable(item) => Ok(item),
        _ => Err(HaltCause::StoreOutside(address)),
    }
}

#[tactic(auto, using(flat_model::proofs::Items::item_at_inside, crate::proofs::Accesses::item_at_cases))]
fn locate(items: &Items, item: ItemId, address: u32) -> Access
    requires { item_at items.now address ≡ Some item }
    ensures value { access_value result ≡ access_in items.now address item }
    ensures inside { 4 * result.place < items.now.size }
{
    let place = ((address - items.address(item)) / 4) as usize;
    Access {
        address,
        item,
        place,
    }
}

pub fn jump_step(target: u32) -> Step
    ensures value { (h : HartValue) → action_by h result ≡ jump h target }
    ensures inside { (size : ℕ) → IsInside size result }
{
    if target % 4 == 0 {
        Step::Jump(target)
    } else {
        Step::Halt(HaltCause::MisalignedTarget(target))
    }
}

/// A jump that puts the pc behind the instruction into a register.
pub fn link_step(rd: Reg, target: u32) -> Step
    ensures value { (h : HartValue) → action_by h result ≡ jump (with_register h rd (next_pc h)) target }
    ensures inside { (size : ℕ) → IsInside size result }
{
    if target % 4 == 0 {
        Step::Link(rd, target)
    } else {
        Step::Halt(HaltCause::MisalignedTarget(target))
    }
}

pub fn load_step(items: &Items, op: LoadOp, rd: Reg, address: u32) -> Step
    ensures value { (h : HartValue) → action_by h result ≡ aligned (load_bytes op) address (load_at items.now (Loads op rd)) }
    ensures inside { IsInside items.now.size result }
{
    match load_item(items, load_bytes(op), address) {
        Ok(item) => Step::Load(op, rd, locate(items, item, address)),
        Err(cause) => Step::Halt(cause),
    }
}

pub fn store_step(items: &Items, op: StoreOp, value: u32, address: u32) -> Step
    ensures value { (h : HartValue) → action_by h result ≡ aligned (store_bytes op) address (store_at items.now (Stores op value)) }
    ensures inside { IsInside items.now.size result }
{
    match store_item(items, store_bytes(op), address) {
        Ok(item) => Step::Store(op, value, locate(items, item, address)),
        Err(cause) => Step::Halt(cause),
    }
}

pub fn reserve_step(items: &Items, rd: Reg, address: u32) -> Step
    ensures value { (h : HartValue) → action_by h result ≡ aligned 4 address (load_at items.now (Reserves rd)) }
    ensures inside { IsInside items.now.size result }
{
    match load_item(items, 4, address) {
        Ok(item) => Step::Reserve(rd, locate(items, item, address)),
        Err(cause) => Step::Halt(cause),
    }
}

pub fn store_if_reserved_step(items: &Items, rd: Reg, value: u32, address: u32) -> Step
    ensures value { (h : HartValue) → action_by h result ≡ aligned 4 address (store_at items.now (StoresIfReserved rd value)) }
    ensures inside { IsInside items.now.size result }
{
    match store_item(items, 4, address) {
        Ok(item) => Step::StoreIfReserved(rd, value, locate(items, item, address)),
        Err(cause) => Step::Halt(cause),
    }
}

pub fn change_step(items: &Items, op: AmoOp, rd: Reg, value: u32, address: u32) -> Step
    ensures value { (h : HartValue) → action_by h result ≡ aligned 4 address (store_at items.now (Changes op rd value)) }
    ensures inside { IsInside items.now.size result }
{
    match store_item(items, 4, address) {
        Ok(item) => Step::Change(op, rd, value, locate(items, item, address)),
        Err(cause) => Step::Halt(cause),
    }
}
