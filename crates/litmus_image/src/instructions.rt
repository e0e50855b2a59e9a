//! The instructions that come before a thread's own.

ghost use Rattle.std.specs.Prelude.{◌≡◌, ◌++◌, ◌≤◌, ◌<◌, OnOk, length};
ghost use Rattle.litmus_model.specs.declared.parts.Target.TheVariants.{Register};
ghost use Rattle.litmus_model.specs.Kept.{test_from};
ghost use Rattle.litmus_model.specs.Steps.{load_number};
ghost use Rattle.litmus_model.specs.Image.{is_dirty, jump_by_number, prologue, setting, setting_one, waiting, warming, warming_load};

use crate::layout::{first_value, word_of};
use elf_load::of_ddm_types::NoMemory;
use litmus_model::{Runs, Target, Test, Value, is_given, load_number};
use rv_decode::{BranchOp, ImmOp, Instr, LoadOp, Reg, RegOp};

const ZERO: Reg = Reg(0);

/// A hart's number, and what is made of it.
const NUMBER: Reg = Reg(10);

/// To the word of the hart's number.
pub(crate) fn jump_by_number() -> [Instr; 4]
    ensures { result ≡ jump_by_number }
{
    [
        Instr::Immediate {
            op: ImmOp::Slli,
            rd: NUMBER,
            rs1: NUMBER,
            imm: 2,
        },
        Instr::Lui {
            rd: Reg(11),
            imm: 0x1_0000,
        },
        Instr::Register {
            op: RegOp::Add,
            rd: NUMBER,
            rs1: NUMBER,
            rs2: Reg(11),
        },
        Instr::Jalr {
            rd: ZERO,
            rs1: NUMBER,
            offset: 16,
        },
    ]
}

/// 250 times two instructions, so that harts don't begin all at once.
fn waiting() -> [Instr; 3]
    ensures { result ≡ waiting }
{
    [
        Instr::Immediate {
            op: ImmOp::Addi,
            rd: NUMBER,
            rs1: ZERO,
            imm: 250,
        },
        Instr::Immediate {
            op: ImmOp::Addi,
            rd: NUMBER,
            rs1: NUMBER,
            imm: -1,
        },
        Instr::Branch {
            op: BranchOp::Bne,
            rs1: NUMBER,
            rs2: ZERO,
            offset: -4,
        },
    ]
}

fn push_load(code: &mut Vec<Instr>, rd: Reg, value: u32) -> Result<(), NoMemory>
    ensures { OnOk result (code.new.items ≡ code.old.items ++ load_number rd value) }
{
    code.extend_from_slice(&load_number(rd, value))?;
    Ok(())
}

/// A load of the location with whose address a register begins.
#[tactic(auto, using(crate::proofs::Pushed::warming_none, crate::proofs::Pushed::warming_one))]
fn push_warming_load(
    code: &mut Vec<Instr>,
    test: &Test,
    item_bytes: u32,
    value: &Value,
) -> Result<(), NoMemory>
    requires few { length test.now.locations.items ≤ 256 }
    requires small { item_bytes ≤ 64 }
    ensures { OnOk result (code.new.items ≡ code.old.items ++ warming_load item_bytes (test_from test.now) value.now) }
{
    match value {
        Value::Number(_) => Ok(()),
        Value::Address(_) => {
            push_load(code, NUMBER, word_of(test, item_bytes, value))?;
            code.push(Instr::Load {
                op: LoadOp::Lw,
                rd: ZERO,
                rs1: NUMBER,
                offset: 0,
            })?;
            Ok(())
        }
    }
}

fn register(thread: u32, number: u8) -> Target
    requires { number < 32 }
    ensures { result ≡ Register thread number }
{
    Target::Register {
        thread,
        register: Reg(number),
    }
}

/// Loads of the locations with whose addresses registers begin.
#[tactic(auto, using(crate::proofs::Pushed::warmed_none, crate::proofs::Pushed::warmed_more, crate::proofs::Pushed::warmed_all))]
fn push_warming(
    code: &mut Vec<Instr>,
    test: &Test,
    item_bytes: u32,
    thread: u32,
) -> Result<(), NoMemory>
    requires few { length test.now.locations.items ≤ 256 }
    requires small { item_bytes ≤ 64 }
    ensures { OnOk result (code.new.items ≡ code.old.items ++ warming (test_from test.now) item_bytes thread) }
{
    for number in 0..32 {
        let value = first_value(test, &register(thread, number));
        push_warming_load(code, test, item_bytes, &value)?;
    }
    Ok(())
}

/// A hart begins with another number than 0 in it, or what comes before its own instructions uses it.
fn is_dirty(number: u8) -> bool
    ensures { result ≡ is_dirty number }
{
    number == 2 || number == 10 || number == 11
}

/// A register's first value, where it isn't 0 by itself.
#[tactic(auto, using(crate::proofs::Pushed::nothing_set, crate::proofs::Pushed::one_set))]
fn push_setting_one(
    code: &mut Vec<Instr>,
    test: &Test,
    item_bytes: u32,
    thread: u32,
    number: u8,
) -> Result<(), NoMemory>
    requires few { length test.now.locations.items ≤ 256 }
    requires small { item_bytes ≤ 64 }
    requires register { number < 32 }
    ensures { OnOk result (code.new.items ≡ code.old.items ++ setting_one (test_from test.now) item_bytes thread number) }
{
    let target = register(thread, number);
    if !is_dirty(number) && !is_given(&test.init, &target) {
        return Ok(());
    }
    let value = first_value(test, &target);
    push_load(code, Reg(number), word_of(test, item_bytes, &value))
}

/// The first values of registers.
#[tactic(auto, using(crate::proofs::Pushed::set_none, crate::proofs::Pushed::set_more, crate::proofs::Pushed::set_all))]
fn push_setting(
    code: &mut Vec<Instr>,
    test: &Test,
    item_bytes: u32,
    thread: u32,
) -> Result<(), NoMemory>
    requires few { length test.now.locations.items ≤ 256 }
    requires small { item_bytes ≤ 64 }
    ensures { OnOk result (code.new.items ≡ code.old.items ++ setting (test_from test.now) item_bytes thread) }
{
    for number in 0..32 {
        push_setting_one(code, test, item_bytes, thread, number)?;
    }
    Ok(())
}

/// All that comes before a thread's own instructions.
#[tactic(auto, using(crate::proofs::Pushed::seeded_prologue), unfolding(litmus_model::specs::Image::prologue))]
pub(crate) fn push_prologue(
    code: &mut Vec<Instr>,
    runs: Runs,
    test: &Test,
    item_bytes: u32,
    thread: u32,
) -> Result<(), NoMemory>
    requires few { length test.now.locations.items ≤ 256 }
    requires small { item_bytes ≤ 64 }
    ensures { OnOk result (code.new.items ≡ code.old.items ++ prologue runs (test_from test.now) item_bytes thread) }
{
    match runs {
        Runs::OfSeeds => {
            push_warming(code, test, item_bytes, thread)?;
            code.extend_from_slice(&waiting())?;
            push_setting(code, test, item_bytes, thread)
        }
        Runs::All => push_setting(code, test, item_bytes, thread),
    }
}
