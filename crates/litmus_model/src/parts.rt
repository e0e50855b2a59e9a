//! What a test is made of.

use crate::name::Name;
use rv_decode::{BranchOp, Instr, Reg};

/// A longest row of letters, digits, `_` and `.`, or a byte that stands alone.
#[derive(Clone, Copy)]
pub enum Part {
    Word(Name),
    Mark(u8),
}

/// A part with its line, which is counted from 1.
#[derive(Clone, Copy)]
pub struct Token {
    pub line: u32,
    pub part: Part,
}

/// How far a text has come whose comments are left out.
#[derive(Clone, Copy)]
pub struct Commented {
    pub line: u32,
    /// How many comments are open.
    pub depth: u32,
    /// The line of the outermost open comment.
    pub begun: u32,
    /// The next byte is the second one of `(*` or `*)`.
    pub half: bool,
}

/// A place in memory: a register, and an offset in bytes.
#[derive(Clone, Copy)]
pub struct Place {
    pub register: Reg,
    pub offset: i32,
}

/// What a register or a location begins with, or is compared with.
#[derive(Clone, Copy)]
pub enum Value {
    /// A word; numbers below 0 are taken modulo 2^32.
    Number(u32),
    /// The address of the location of this name.
    Address(Name),
}

/// What has a value.
#[derive(Clone, Copy)]
pub enum Target {
    Register { thread: u32, register: Reg },
    Location(Name),
}

/// What a register or a location begins with.
#[derive(Clone, Copy)]
pub struct Given {
    pub target: Target,
    pub value: Value,
}

/// A step of a thread.
#[derive(Clone, Copy)]
pub enum Step {
    Label(Name),
    Plain(Instr),
    /// A branch of two registers to a label.
    Branch {
        op: BranchOp,
        rs1: Reg,
        rs2: Reg,
        label: Name,
    },
    Jump(Name),
}

/// A step with its thread and its line.
#[derive(Clone, Copy)]
pub struct PlacedStep {
    pub thread: u32,
    pub line: u32,
    pub step: Step,
}

/// A chunk of a condition.
#[derive(Clone, Copy)]
pub enum Chunk {
    Open,
    Close,
    Not,
    And,
    Or,
    True,
    False,
    Is { target: Target, value: Value },
}

/// How far a condition has come.
#[derive(Clone, Copy)]
pub struct Standing {
    /// How many brackets are open.
    pub brackets: u32,
    /// An atom, `not` or `(` must follow.
    pub wants: bool,
}
