//! What the words of a litmus test say: numbers, registers, targets, values, and the operands of instructions.
#![tactic(auto)]

mod letters;
mod numbers;
mod operands;
mod registers;
mod targets;

pub use operands::{
    label_operand, memory_operand, number_operand, register_operand, set_operand, shift_operand,
    short_operand, upper_operand,
};
pub use targets::{target_of, value_of};
