//! Parts: which mark or word one is, and where the first `=` is.

ghost use Rattle.std.specs.Prelude.{◌≡◌, ◌≤◌, length};
ghost use Rattle.litmus_model.specs.Tokens.{is_part_mark};
ghost use Rattle.litmus_model.specs.Init.{equals_place};
ghost use Rattle.litmus_model.specs.Condition.{is_part_word};

use litmus_model::Part;
use litmus_text::is;

pub(crate) fn is_part_mark(mark: u8, part: &Part) -> bool
    ensures { result ≡ is_part_mark mark part.now }
{
    match part {
        Part::Word(_) => false,
        Part::Mark(byte) => *byte == mark,
    }
}

/// Whether a part is this word.
pub(crate) fn is_part_word(name: &str, part: &Part) -> bool
    ensures { result ≡ is_part_word name.now part.now }
{
    match part {
        Part::Word(word) => is(word.bytes(), name),
        Part::Mark(_) => false,
    }
}

/// How many parts are before the first `=`.
#[tactic(auto, using(litmus_model::proofs::Searches::position_search))]
pub(crate) fn equals_place(parts: &[Part]) -> usize
    ensures place { result ≡ equals_place parts.now }
    ensures inside { result ≤ length parts.now }
{
    for (place, part) in parts.iter().enumerate() {
        if is_part_mark(b'=', part) {
            return place;
        }
    }
    parts.len()
}
