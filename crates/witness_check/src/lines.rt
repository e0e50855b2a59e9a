//! The operation that a line says.

ghost use Rattle.std.specs.Prelude.{◌≡◌, ◌∷◌, option_map};
ghost use Rattle.text_model.specs.Schedule.{pieces_at};
ghost use Rattle.witness_check.specs.Lines.{op_in, op_of_words, without_key};

use crate::effects::effect_of;
use crate::hex::hex8;
use crate::of_ddm_types::{HartNo, Key, Op};
use crate::words::{cut_word, is_key, number};

const MARK: &[u8] = b"op";

#[tactic(auto, unfolding(crate::specs::Lines::op_of_words))]
fn op_of_parts(mark: &[u8], hart: &[u8], key: &[u8], pc: &[u8], effect: &[u8]) -> Option<Op>
    ensures { result ≡ option_map without_key (op_of_words (mark.now ∷ hart.now ∷ key.now ∷ pc.now ∷ pieces_at 32 effect.now)) }
{
    if mark != MARK || !is_key(key) {
        return None;
    }
    let hart = HartNo(number(hart)?);
    let pc = hex8(pc)?;
    let effect = effect_of(effect)?;
    Some(Op {
        key: Key::zero(),
        hart,
        pc,
        effect,
    })
}

/// The operation that a line is, if it is one. Its key is read and left aside.
#[tactic(auto, unfolding(crate::specs::Lines::op_in, crate::specs::Lines::op_of_words))]
pub(crate) fn op_of_line(line: &[u8]) -> Option<Op>
    ensures { result ≡ option_map without_key (op_in line.now) }
{
    let (mark, first) = cut_word(line)?;
    let (hart, second) = cut_word(first)?;
    let (key, third) = cut_word(second)?;
    let Some((pc, effect)) = cut_word(third) else {
        return None;
    };
    op_of_parts(mark, hart, key, pc, effect)
}
