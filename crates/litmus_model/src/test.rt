//! What a litmus test says.

use crate::name::Name;
use crate::parts::{Chunk, Given, PlacedStep, Target};
use rv_decode::{AmoOp, BranchOp, ImmOp, LoadOp, RegOp, StoreOp};

/// Acquire and release.
#[derive(Clone, Copy, Debug, PartialEq, Eq)]
pub struct Orders {
    pub aq: bool,
    pub rl: bool,
}

/// An instruction of an assembler of two registers.
#[derive(Clone, Copy, Debug, PartialEq, Eq)]
pub enum Move {
    Mv,
    Not,
    Neg,
    Seqz,
    Snez,
}

/// What a mnemonic says: which operands it takes, and what is made of them.
#[derive(Clone, Copy, Debug, PartialEq, Eq)]
pub enum Form {
    Registers(RegOp),
    Immediate(ImmOp),
    /// `lui`
    Upper,
    /// `li`
    Number,
    Load(LoadOp),
    Store(StoreOp),
    /// Of two registers; `turned`: exchanged.
    Branch { op: BranchOp, turned: bool },
    /// Of a register and 0; `turned`: of 0 and a register.
    ZeroBranch { op: BranchOp, turned: bool },
    /// `j`
    Jump,
    Move(Move),
    /// `nop`
    Nothing,
    Fence,
    /// A fence without operands, with its upper 12 bits.
    FixedFence(u32),
    LoadReserved(Orders),
    StoreConditional(Orders),
    Amo { op: AmoOp, orders: Orders },
}

/// What the condition is asked for.
#[derive(Clone, Copy, Debug, PartialEq, Eq)]
pub enum Quantifier {
    Exists,
    /// `~exists`
    NotExists,
    Forall,
}

/// Whose runs an image is for.
#[derive(Clone, Copy, Debug, PartialEq, Eq)]
pub enum Runs {
    /// Those of seeds: each thread first loads what it will use, and then waits.
    OfSeeds,
    /// Those of all schedules.
    All,
}

/// A litmus test.
#[derive(Drop)]
pub struct Test {
    pub name: Vec<u8>,
    pub threads: u32,
    /// Of all threads, row by row.
    pub program: Vec<PlacedStep>,
    pub init: Vec<Given>,
    pub quantifier: Quantifier,
    pub chunks: Vec<Chunk>,
    /// Registers by thread and number, then locations by name.
    pub observed: Vec<Target>,
    /// The names of the locations, in the order of the items that they get.
    pub locations: Vec<Name>,
}
