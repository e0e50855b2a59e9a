//! What has been given of a target, and the instructions that put a number into a register.

ghost use Rattle.std.specs.Prelude.{◌≡◌};
ghost use Rattle.litmus_model.specs.Init.{is_given, same_target};
ghost use Rattle.litmus_model.specs.Steps.{high_part, load_number, low_part};

use crate::name::same_name;
use crate::parts::{Given, Target};
use rv_decode::{ImmOp, Instr, Reg};

pub fn same_target(one: &Target, other: &Target) -> bool
    ensures { result ≡ same_target one.now other.now }
{
    match (one, other) {
        (
            Target::Register { thread, register },
            Target::Register {
                thread: other_thread,
                register: other_register,
            },
        ) => *thread == *other_thread && register.0 == other_register.0,
        (Target::Location(name), Target::Location(other_name)) => same_name(name, other_name),
        _ => false,
    }
}

#[tactic(auto, using(crate::proofs::Searches::any_next, crate::proofs::Searches::any_found, crate::proofs::Searches::any_done))]
pub fn is_given(givens: &[Given], target: &Target) -> bool
    ensures { result ≡ is_given givens.now target.now }
{
    for given in givens {
        if same_target(&given.target, target) {
            return true;
        }
    }
    false
}

/// The low 12 bits in two's complement.
#[tactic(auto, unfolding(crate::specs::Steps::low_part))]
fn low_part(value: u32) -> i32
    ensures { result ≡ low_part value }
{
    let low = value % 4096;
    if low < 2048 {
        low as i32
    } else {
        -((4096 - low) as i32)
    }
}

/// What is left of a word without its low part.
#[tactic(auto, unfolding(crate::specs::Steps::high_part))]
fn high_part(value: u32) -> u32
    ensures { result ≡ high_part value }
{
    let raised = value.wrapping_add(2048);
    raised - raised % 4096
}

/// `lui` and `addi`: any word into a register.
#[tactic(auto, unfolding(crate::specs::Steps::load_number))]
pub fn load_number(rd: Reg, value: u32) -> [Instr; 2]
    ensures { result ≡ load_number rd value }
{
    [
        Instr::Lui {
            rd,
            imm: high_part(value),
        },
        Instr::Immediate {
            op: ImmOp::Addi,
            rd,
            rs1: rd,
            imm: low_part(value),
        },
    ]
}
