//! The random program of a seed.

ghost use Rattle.std.specs.Prelude.{◌≡◌, ◌≤◌, ◌+◌, ◌*◌, ◌++◌, All, IfOk, OnOk, length};
ghost use Rattle.made_image.specs.RvDecode.Valid.{IsValid};
ghost use Rattle.made_image.specs.MadeImage.{made_image, made_program, made_segments, program_bytes};
ghost use Rattle.made_image.specs.Rounds.{first_rounds, round_bytes};

use crate::of_ddm_types::NoMemory;
use crate::of_rv_decode::{Instr, encode};
use crate::program::{ending, opening, round_of};
use elf_load::{Segment, write_image};
use rand_core::utils::NextWord;
use rand_pcg::Pcg32;
use std::alloc::Global;

/// The stream of the generator.
const STREAM: u64 = 54;

/// Where the code begins, with the first instruction.
const CODE: u32 = 0x1_0000;

/// Where the 64 words begin, and their bytes.
const MEMORY: u32 = 0x20_0000;

const MEMORY_BYTES: u32 = 256;

#[tactic(auto, using(crate::proofs::Pushes::instr_next, crate::proofs::Pushes::instrs_done))]
fn push_program(code: &mut Vec<u8>, program: &[Instr]) -> Result<(), NoMemory>
    requires { All IsValid program.now }
    ensures { OnOk result (code.new.items ≡ code.old.items ++ program_bytes program.now) }
{
    for instr in program {
        code.extend_from_slice(&encode(instr).to_le_bytes())?;
    }
    Ok(())
}

/// The bytes of the round of a word.
fn round_bytes(word: u32) -> [u8; 8]
    ensures { result ≡ round_bytes word }
{
    let [first, second] = round_of(word);
    let mut bytes = [0; 8];
    bytes[..4].copy_from_slice(&encode(&first).to_le_bytes());
    bytes[4..].copy_from_slice(&encode(&second).to_le_bytes());
    bytes
}

/// The bytes of each round that there is: the last eight bits of its word say which one it is.
#[tactic(auto, using(crate::proofs::Rounds::no_round, crate::proofs::Rounds::next_round))]
fn all_rounds(alloc: Global) -> Result<Vec<[u8; 8]>, NoMemory>
    ensures { IfOk result (λ rounds. rounds.items ≡ first_rounds 256) }
{
    let mut rounds = Vec::with_capacity(alloc, 256)?;
    for word in 0..256 {
        rounds.push(round_bytes(word))?;
    }
    Ok(rounds)
}

/// The bytes of the round of a word, where those of each round are at hand.
#[tactic(auto, using(crate::proofs::Rounds::round_inside, crate::proofs::Rounds::round_there))]
fn known_round(all: &[[u8; 8]], word: u32) -> [u8; 8]
    requires { all.now ≡ first_rounds 256 }
    ensures { result ≡ round_bytes word }
{
    all[(word % 256) as usize]
}

/// The bytes of the program: eight for each round, and those of the four instructions around them.
#[tactic(auto, using(crate::proofs::Pushes::rounds_begun, crate::proofs::Pushes::round_next, crate::proofs::Pushes::rounds_done))]
fn made_code(alloc: Global, seed: u64, rounds: u32) -> Result<Vec<u8>, NoMemory>
    ensures { IfOk result (λ code. code.items ≡ program_bytes (made_program seed rounds)) }
{
    let all = all_rounds(alloc)?;
    let mut words = Pcg32::new(seed, STREAM);
    let mut code = Vec::with_capacity(alloc, 8 * rounds as usize + 16)?;
    push_program(&mut code, &opening())?;
    for round in 0..rounds {
        let _ = round;
        code.extend_from_slice(&known_round(&all, words.next_word()))?;
    }
    push_program(&mut code, &ending())?;
    Ok(code)
}

/// The code, and the memory that the program works on.
#[tactic(auto, unfolding(crate::specs::MadeImage::made_segments))]
fn made_segments(alloc: Global, code: Vec<u8>) -> Result<Vec<Segment>, NoMemory>
    requires { length code.items ≤ 400016 }
    ensures { IfOk result (λ segments. segments.items ≡ made_segments code.items) }
{
    let mut segments = Vec::new(alloc);
    let memsz = code.len() as u32;
    segments.push(Segment {
        header: 0,
        vaddr: CODE,
        flags: 5,
        bytes: code,
        memsz,
    })?;
    segments.push(Segment {
        header: 1,
        vaddr: MEMORY,
        flags: 6,
        bytes: Vec::new(alloc),
        memsz: MEMORY_BYTES,
    })?;
    Ok(segments)
}

/// The ELF file of the random program of a seed with so many rounds.
#[tactic(auto, using(crate::proofs::Lengths::made_fits), // of two segments
unfolding(crate::specs::MadeImage::made_image, crate::specs::MadeImage::made_segments))]
pub fn make_image(alloc: Global, seed: u64, rounds: u32) -> Result<Vec<u8>, NoMemory>
    requires some { 1 ≤ rounds }
    requires few { rounds ≤ 50000 }
    ensures { IfOk result (λ bytes. bytes.items ≡ made_image seed rounds) }
{
    let code = made_code(alloc, seed, rounds)?;
    let segments = made_segments(alloc, code)?;
    write_image(alloc, CODE, &segments)
}
