//! Results of 32 bits.
ghost use Rattle.std.specs.Prelude.{◌≡◌, int_lt};
ghost use Rattle.flat_model.specs.Hart.{amo_result, immediate_result, is_taken, offset_by, operation, register_result, signed_word};

use crate::of_rv_decode::{AmoOp, BranchOp, ImmOp, RegOp};

/// The address at this offset.
pub fn offset_by(base: u32, offset: i32) -> u32
    ensures { result ≡ offset_by base offset }
{
    base.wrapping_add(offset.cast_unsigned())
}

fn is_less(a: u32, b: u32) -> bool
    ensures { result ≡ int_lt (signed_word a) (signed_word b) }
{
    a.cast_signed() < b.cast_signed()
}

/// A shift is by the low five bits of `b`.
pub fn register_result(op: RegOp, a: u32, b: u32) -> u32
    ensures { result ≡ register_result op a b }
{
    match op {
        RegOp::Add => a.wrapping_add(b),
        RegOp::Sub => a.wrapping_sub(b),
        RegOp::Sll => a.wrapping_shl(b),
        RegOp::Slt => u32::from(is_less(a, b)),
        RegOp::Sltu => u32::from(a < b),
        RegOp::Xor => a ^ b,
        RegOp::Srl => a.wrapping_shr(b),
        RegOp::Sra => a.cast_signed().wrapping_shr(b).cast_unsigned(),
        RegOp::Or => a | b,
        RegOp::And => a & b,
    }
}

/// The operation on two registers that this one is with an immediate.
fn operation(op: ImmOp) -> RegOp
    ensures { result ≡ operation op }
{
    match op {
        ImmOp::Addi => RegOp::Add,
        ImmOp::Slti => RegOp::Slt,
        ImmOp::Sltiu => RegOp::Sltu,
        ImmOp::Xori => RegOp::Xor,
        ImmOp::Ori => RegOp::Or,
        ImmOp::Andi => RegOp::And,
        ImmOp::Slli => RegOp::Sll,
        ImmOp::Srli => RegOp::Srl,
        ImmOp::Srai => RegOp::Sra,
    }
}

pub fn immediate_result(op: ImmOp, a: u32, imm: i32) -> u32
    ensures { result ≡ immediate_result op a imm }
{
    register_result(operation(op), a, imm.cast_unsigned())
}

/// Whether a branch on these operands is taken.
pub fn is_taken(op: BranchOp, a: u32, b: u32) -> bool
    ensures { result ≡ is_taken op a b }
{
    match op {
        BranchOp::Beq => a == b,
        BranchOp::Bne => a != b,
        BranchOp::Blt => is_less(a, b),
        BranchOp::Bge => !is_less(a, b),
        BranchOp::Bltu => a < b,
        BranchOp::Bgeu => a >= b,
    }
}

/// What an AMO stores, of the old word and the register's.
pub fn amo_result(op: AmoOp, old: u32, value: u32) -> u32
    ensures { result ≡ amo_result op old value }
{
    match op {
        AmoOp::Add => old.wrapping_add(value),
        AmoOp::Swap => value,
        AmoOp::Xor => old ^ value,
        AmoOp::Or => old | value,
        AmoOp::And => old & value,
        AmoOp::Min if is_less(value, old) => value,
        AmoOp::Min => old,
        AmoOp::Max if is_less(old, value) => value,
        AmoOp::Max => old,
        AmoOp::Minu => old.min(value),
        AmoOp::Maxu => old.max(value),
    }
}
