//! The names of registers.

ghost use Rattle.std.specs.Prelude.{◌≡◌, ◌<◌, ◌≤◌, IfSome, bytes_eq, length};
ghost use Rattle.std.specs.List.{position_or_len};
ghost use Rattle.litmus_model.specs.Words.{place_in, register_of};
ghost use Rattle.litmus_words.specs.Tables.{texts_of};

use litmus_text::is;
use rv_decode::Reg;

/// By their numbers.
const ABI_NAMES: [&str; 32] = [
    "zero", "ra", "sp", "gp", "tp", "t0", "t1", "t2", "s0", "s1", "a0", "a1", "a2", "a3", "a4",
    "a5", "a6", "a7", "s2", "s3", "s4", "s5", "s6", "s7", "s8", "s9", "s10", "s11", "t3", "t4",
    "t5", "t6",
];

const NUMBERED_NAMES: [&str; 32] = [
    "x0", "x1", "x2", "x3", "x4", "x5", "x6", "x7", "x8", "x9", "x10", "x11", "x12", "x13", "x14",
    "x15", "x16", "x17", "x18", "x19", "x20", "x21", "x22", "x23", "x24", "x25", "x26", "x27",
    "x28", "x29", "x30", "x31",
];

/// The place of a word among these; how many they are, where it is none of them.
#[tactic(auto, using(crate::proofs::Tables::text_next, crate::proofs::Tables::text_found, crate::proofs::Tables::text_done))]
fn place_or_count(names: &[&str], word: &[u8]) -> usize
    ensures place { result ≡ position_or_len (bytes_eq word.now) (texts_of names.now) }
    ensures inside { result ≤ length names.now }
{
    for (place, name) in names.iter().enumerate() {
        if is(word, name) {
            return place;
        }
    }
    names.len()
}

#[tactic(auto, using(crate::proofs::Tables::as_many_texts))]
fn place_in(names: &[&str], word: &[u8]) -> Option<usize>
    ensures place { result ≡ place_in (texts_of names.now) word.now }
    ensures inside { IfSome result (λ place. place < length names.now) }
{
    let place = place_or_count(names, word);
    if place < names.len() {
        Some(place)
    } else {
        None
    }
}

/// The register of this name.
#[tactic(auto, unfolding(litmus_model::specs::Words::register_of, // by both tables
litmus_model::specs::Words::numbered_names, litmus_model::specs::Words::abi_names))]
pub(crate) fn register_of(word: &[u8]) -> Option<Reg>
    ensures register { result ≡ register_of word.now }
    ensures valid { IfSome result (λ register. register < 32) }
{
    match place_in(&NUMBERED_NAMES, word) {
        Some(number) => Some(Reg(number as u8)),
        None => match place_in(&ABI_NAMES, word) {
            Some(number) => Some(Reg(number as u8)),
            None if is(word, "fp") => Some(Reg(8)),
            None => None,
        },
    }
}
