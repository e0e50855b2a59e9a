//! The set of a fence: some of the letters `iorw` in this order.

ghost use Rattle.std.specs.Prelude.{◌≡◌, ◌+◌, ◌≤◌, ◌∷◌, IfSome, List, length};
ghost use Rattle.litmus_model.specs.Operands.{Letter, fence_letters, letter_bits};
ghost use Rattle.litmus_words.specs.Letters.{bits_left};

/// How many bytes of a word are letters so far, and their bits.
#[derive(Clone, Copy)]
struct Taken {
    bits: u32,
    at: usize,
}

/// With one letter more, if it comes next.
#[tactic(auto, using(crate::proofs::TakenLetters::letter_cases))]
fn after_letter(byte: u8, bit: u32, so_far: Taken, word: &[u8]) -> Taken
    requires at { so_far.at ≤ length word.now }
    requires bits { so_far.bits ≤ 15 }
    requires bit { bit ≤ 8 }
    ensures left { (ls : List Letter) → bits_left so_far (record { byte = byte; bit = bit } ∷ ls) word.now ≡ bits_left result ls word.now }
    ensures at { result.at ≤ length word.now }
    ensures bits { result.bits ≤ so_far.bits + bit }
{
    if so_far.at < word.len() && word[so_far.at] == byte {
        Taken {
            bits: so_far.bits + bit,
            at: so_far.at + 1,
        }
    } else {
        so_far
    }
}

/// The bits of the letters that a word is.
#[tactic(auto, using(crate::proofs::TakenLetters::begun, crate::proofs::TakenLetters::all_taken, crate::proofs::TakenLetters::some_taken))]
pub(crate) fn letter_bits(word: &[u8]) -> Option<u32>
    ensures bits { result ≡ letter_bits fence_letters word.now }
    ensures small { IfSome result (λ bits. bits ≤ 15) }
{
    let none = Taken { bits: 0, at: 0 };
    let i = after_letter(b'i', 8, none, word);
    let o = after_letter(b'o', 4, i, word);
    let r = after_letter(b'r', 2, o, word);
    let w = after_letter(b'w', 1, r, word);
    if w.at == word.len() {
        Some(w.bits)
    } else {
        None
    }
}
