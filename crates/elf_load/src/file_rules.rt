//! The rules for an ELF header.

ghost use Rattle.std.specs.Prelude.{◌≡◌, ℕ, ◌+◌, ◌<◌, ◌≤◌, IfNone, IsTrue, length, find};
ghost use Rattle.std.specs.List.{range_with_len};
ghost use Rattle.elf_load.specs.ElfFile.{file_refusal, flags_refusal, has_bit, is_elf, is_outside, is_right_class};
ghost use Rattle.elf_load.specs.ElfFile.{kind_refusal, table_refusal};
ghost use Rattle.elf_load.specs.HeaderRule.{HasTable};

use crate::fields::{half_at, word_in};
use crate::refusal::{ImageRefusal, first_refusal, refused_if};

/// The most bytes that a file has.
const MOST_BYTES: usize = 0x40_0000;

/// The most program headers.
const MOST_HEADERS: u32 = 64;

/// The bytes of an ELF header.
const ELF_HEADER: usize = 52;

fn is_elf(file: &[u8]) -> bool
    ensures elf { result ≡ is_elf file.now }
    ensures long { IsTrue result → 52 ≤ length file.now }
{
    file.len() >= ELF_HEADER
        && file[0] == 0x7f
        && file[1] == b'E'
        && file[2] == b'L'
        && file[3] == b'F'
        && file[6] == 1
}

fn is_right_class(file: &[u8]) -> bool
    requires { 52 ≤ length file.now }
    ensures { result ≡ is_right_class file.now }
{
    file[4] == 1 && file[5] == 1
}

/// What the fields that say what kind of file it is are refused for.
#[tactic(auto, unfolding(crate::specs::ElfFile::kind_refusal))]
fn kind_refusal(file: &[u8]) -> Option<ImageRefusal>
    requires { 52 ≤ length file.now }
    ensures { result ≡ kind_refusal file.now }
{
    first_refusal(&[
        refused_if(!is_right_class(file), ImageRefusal::WrongClass),
        refused_if(half_at(file, 16) != 2, ImageRefusal::NotExecutable),
        refused_if(half_at(file, 18) != 243, ImageRefusal::WrongMachine),
    ])
}

fn has_bit(flags: u32, bits: u32) -> bool
    ensures { result ≡ has_bit flags bits }
{
    flags & bits != 0
}

/// What the flags are refused for.
#[tactic(auto, unfolding(crate::specs::ElfFile::flags_refusal))]
fn flags_refusal(file: &[u8]) -> Option<ImageRefusal>
    requires { 52 ≤ length file.now }
    ensures { result ≡ flags_refusal file.now }
{
    let flags = word_in(file, 36);
    first_refusal(&[
        refused_if(has_bit(flags, 0x1), ImageRefusal::Compressed),
        refused_if(has_bit(flags, 0x6), ImageRefusal::HardFloat),
        refused_if(has_bit(flags, 0x8), ImageRefusal::Embedded),
    ])
}

/// Whether the file ends before the program header with this number does.
fn is_outside(file: &[u8], number: u32) -> bool
    requires long { 52 ≤ length file.now }
    requires few { number < 64 }
    ensures { result ≡ is_outside file.now number }
{
    let place = u64::from(word_in(file, 28)) + 32 * u64::from(number);
    (file.len() as u64) < place + 32
}

/// The first of so many program headers that isn't in the file.
#[tactic(auto, using(crate::proofs::Finds::find_next, crate::proofs::Finds::find_here, crate::proofs::Finds::find_none))]
fn first_outside(file: &[u8], count: u32) -> Option<u32>
    requires long { 52 ≤ length file.now }
    requires few { count ≤ 64 }
    ensures { result ≡ find (is_outside file.now) (range_with_len 0 count) }
{
    for number in 0..count {
        if is_outside(file, number) {
            return Some(number);
        }
    }
    None
}

/// What the table of program headers is refused for.
#[tactic(auto, unfolding(crate::specs::ElfFile::table_refusal))]
fn table_refusal(file: &[u8]) -> Option<ImageRefusal>
    requires { 52 ≤ length file.now }
    ensures { result ≡ table_refusal file.now }
{
    let count = u32::from(half_at(file, 44));
    if count > MOST_HEADERS {
        return Some(ImageRefusal::TooManyHeaders(count));
    }
    if count > 0 && half_at(file, 42) != 32 {
        return Some(ImageRefusal::HeaderOutside(0));
    }
    match first_outside(file, count) {
        Some(number) => Some(ImageRefusal::HeaderOutside(number)),
        None => None,
    }
}

/// What the file is refused for before its program headers are read.
#[tactic(auto, unfolding(crate::specs::ElfFile::file_refusal))]
pub fn file_refusal(file: &[u8]) -> Option<ImageRefusal>
    ensures { result ≡ file_refusal file.now }
{
    if file.len() > MOST_BYTES {
        return Some(ImageRefusal::TooLong);
    }
    if !is_elf(file) {
        return Some(ImageRefusal::NotElf);
    }
    first_refusal(&[kind_refusal(file), flags_refusal(file), table_refusal(file)])
}
