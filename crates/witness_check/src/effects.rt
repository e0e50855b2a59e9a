//! The effect that a line says.

ghost use Rattle.std.specs.Prelude.{◌≡◌, bytes_eq, codes};
ghost use Rattle.text_model.specs.Schedule.{pieces_at};
ghost use Rattle.witness_check.specs.Lines.{effect_of_one, effect_of_three, effect_of_two, effect_of_words};

use crate::hex::{hex2, hex8};
use crate::of_ddm_types::Effect;
use crate::words::cut_word;

const PUT: &[u8] = b"put";

const LR: &[u8] = b"lr";

const SC_FAIL: &[u8] = b"scfail";

const AMO: &[u8] = b"amo";

// The names of more bytes that most lines have: a pattern is compared without a call.
#[inline(always)]
fn is_plain(name: &[u8]) -> bool
    ensures { result ≡ bytes_eq name.now (codes "plain") }
{
    matches!(name, b"plain")
}

#[inline(always)]
fn is_load(name: &[u8]) -> bool
    ensures { result ≡ bytes_eq name.now (codes "load") }
{
    matches!(name, b"load")
}

#[inline(always)]
fn is_store(name: &[u8]) -> bool
    ensures { result ≡ bytes_eq name.now (codes "store") }
{
    matches!(name, b"store")
}

#[inline(always)]
fn is_sc_ok(name: &[u8]) -> bool
    ensures { result ≡ bytes_eq name.now (codes "scok") }
{
    matches!(name, b"scok")
}

fn effect_of_one(name: &[u8], number: &[u8]) -> Option<Effect>
    ensures { result ≡ effect_of_one name.now number.now }
{
    if name == PUT {
        let byte = hex2(number)?;
        Some(Effect::Put { byte })
    } else if name == SC_FAIL {
        let address = hex8(number)?;
        Some(Effect::ScFail { address })
    } else {
        None
    }
}

fn effect_of_two(name: &[u8], address: &[u8], word: &[u8]) -> Option<Effect>
    ensures { result ≡ effect_of_two name.now address.now word.now }
{
    if is_load(name) {
        let address = hex8(address)?;
        let word = hex8(word)?;
        Some(Effect::Load { address, word })
    } else if name == LR {
        let address = hex8(address)?;
        let word = hex8(word)?;
        Some(Effect::Lr { address, word })
    } else {
        None
    }
}

fn effect_of_three(name: &[u8], address: &[u8], before: &[u8], after: &[u8]) -> Option<Effect>
    ensures { result ≡ effect_of_three name.now address.now before.now after.now }
{
    if is_store(name) {
        let address = hex8(address)?;
        let before = hex8(before)?;
        let after = hex8(after)?;
        Some(Effect::Store {
            address,
            before,
            after,
        })
    } else if is_sc_ok(name) {
        let address = hex8(address)?;
        let before = hex8(before)?;
        let after = hex8(after)?;
        Some(Effect::ScOk {
            address,
            before,
            after,
        })
    } else if name == AMO {
        let address = hex8(address)?;
        let before = hex8(before)?;
        let after = hex8(after)?;
        Some(Effect::Amo {
            address,
            before,
            after,
        })
    } else {
        None
    }
}

/// The effect that the words of a text are.
#[tactic(auto, unfolding(crate::specs::Lines::effect_of_words))]
pub(crate) fn effect_of(text: &[u8]) -> Option<Effect>
    ensures { result ≡ effect_of_words (pieces_at 32 text.now) }
{
    // One word that many lines end with.
    if is_plain(text) {
        return Some(Effect::Plain);
    }
    let Some((name, first)) = cut_word(text) else {
        return None;
    };
    let Some((address, second)) = cut_word(first) else {
        return effect_of_one(name, first);
    };
    let Some((before, third)) = cut_word(second) else {
        return effect_of_two(name, address, second);
    };
    match cut_word(third) {
        None => effect_of_three(name, address, before, third),
        Some(_) => None,
    }
}
