//! The instructions of RV32IA without compressed forms, the table that says which word is which, and the decoder and
//! the encoder that are proved against it.
#![tactic(auto)]

ghost use Rattle.std.specs.Prelude.{◌≡◌, ◌↔◌, ℕ, ◌^◌, ◌<◌, Some};
ghost use Rattle.rv_decode.specs.declared.instructions.Instr.{Instr as InstrValue};
ghost use Rattle.rv_decode.specs.Table.{decode_of, Decodes};
ghost use Rattle.rv_decode.specs.Valid.{IsValid};
ghost use Rattle.rv_decode.specs.Encode.{encode_of};
ghost use Rattle.rv_decode.specs.Examples.{InstructionVectors, OutsideVectors, ProgramWords, JumpWords, MemoryWords};
ghost use Rattle.rv_decode.specs.Examples.{ImmediateWords, RegisterWords, AtomicWords};

mod decoding;
mod encoding;
mod fields;
mod instructions;

pub use decoding::decode;
pub use encoding::encode;
pub use instructions::{AmoOp, BranchOp, ImmOp, Instr, LoadOp, Reg, RegOp, StoreOp};

/// The table gives the published vectors: words that are instructions, and words outside the table.
#[tactic(auto, using(crate::proofs::Vectors::instruction_vectors, crate::proofs::Vectors::outside_vectors))]
pub fn decoder_vectors()
    ensures instructions { InstructionVectors }
    ensures outside { OutsideVectors }
{}

/// Each word of the worked programs, and a word of each row of the table, is what an assembler says.
#[tactic(auto, using(crate::proofs::Vectors::assembled_words))]
pub fn assembler_words()
    ensures programs { ProgramWords }
    ensures jumps { JumpWords }
    ensures memory { MemoryWords }
    ensures immediates { ImmediateWords }
    ensures registers { RegisterWords }
    ensures atomics { AtomicWords }
{}

/// A word fits at most one row of the table, and the decoder's answer is what that row makes.
pub fn one_row_for_a_word()
    ensures { (word : ℕ) (i : InstrValue) → Decodes word i ↔ (decode_of word ≡ Some i) }
{}

/// A word's instruction is valid, and the word is the one that `encode` gives for it: so no two words are one
/// instruction.
#[tactic(auto, using(crate::proofs::Decoded::one_word))]
pub fn one_word()
    ensures { (w : ℕ) (i : InstrValue) → w < 2 ^ 32 → decode_of w ≡ Some i → IsValid i × (encode_of i ≡ w) }
{}
