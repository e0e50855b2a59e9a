//! What an instruction did, as text.

ghost use Rattle.std.specs.Prelude.{◌++◌, OnOk, codes};
ghost use Rattle.report.specs.DdmText.Adds.{Adds};
ghost use Rattle.report.specs.DdmText.Hex.{hex8};
ghost use Rattle.text_model.specs.Words.{effect_text, halt_text, state_text};
ghost use Rattle.report.specs.Room.{UsesRoom};

use crate::buffers::TextBuffer;
use crate::digits::{hex2_digits, hex8_digits};
use crate::of_ddm_types::{Effect, HaltCause, NoMemory};
use crate::pieces::{push_bytes, push_named, push_named_word};

// A load: its address and the word there. Here and below all bytes are put at once.
fn push_load<W: TextBuffer>(out: &mut W, address: u32, word: u32) -> Result<(), NoMemory>
    ensures text { OnOk result (Adds (W.text out.old) (W.text out.new)
        (codes "load " ++ hex8 address ++ codes " " ++ hex8 word)) }
    ensures room { UsesRoom 22 (W.room out.old) (W.room out.new) result }
{
    let [a, b, c, d, e, f, g, h] = hex8_digits(address);
    let [i, j, k, l, m, n, o, p] = hex8_digits(word);
    out.put(&[
        b'l', b'o', b'a', b'd', b' ', a, b, c, d, e, f, g, h, b' ', i, j, k, l, m, n, o, p,
    ])
}

// A load that reserves: its address and the word there.
fn push_lr<W: TextBuffer>(out: &mut W, address: u32, word: u32) -> Result<(), NoMemory>
    ensures text { OnOk result (Adds (W.text out.old) (W.text out.new)
        (codes "lr " ++ hex8 address ++ codes " " ++ hex8 word)) }
    ensures room { UsesRoom 20 (W.room out.old) (W.room out.new) result }
{
    let [a, b, c, d, e, f, g, h] = hex8_digits(address);
    let [i, j, k, l, m, n, o, p] = hex8_digits(word);
    out.put(&[
        b'l', b'r', b' ', a, b, c, d, e, f, g, h, b' ', i, j, k, l, m, n, o, p,
    ])
}

// A store: its address and the words there before and after.
fn push_store<W: TextBuffer>(
    out: &mut W,
    address: u32,
    before: u32,
    after: u32,
) -> Result<(), NoMemory>
    ensures text { OnOk result (Adds (W.text out.old) (W.text out.new)
        (codes "store " ++ hex8 address ++ codes " " ++ hex8 before ++ codes " " ++ hex8 after)) }
    ensures room { UsesRoom 32 (W.room out.old) (W.room out.new) result }
{
    let [a, b, c, d, e, f, g, h] = hex8_digits(address);
    let [i, j, k, l, m, n, o, p] = hex8_digits(before);
    let [q, r, s, t, u, v, w, x] = hex8_digits(after);
    out.put(&[
        b's', b't', b'o', b'r', b'e', b' ', a, b, c, d, e, f, g, h, b' ', i, j, k, l, m, n, o, p,
        b' ', q, r, s, t, u, v, w, x,
    ])
}

// A conditional store that took place: its address and the words there before and after.
fn push_scok<W: TextBuffer>(
    out: &mut W,
    address: u32,
    before: u32,
    after: u32,
) -> Result<(), NoMemory>
    ensures text { OnOk result (Adds (W.text out.old) (W.text out.new)
        (codes "scok " ++ hex8 address ++ codes " " ++ hex8 before ++ codes " " ++ hex8 after)) }
    ensures room { UsesRoom 31 (W.room out.old) (W.room out.new) result }
{
    let [a, b, c, d, e, f, g, h] = hex8_digits(address);
    let [i, j, k, l, m, n, o, p] = hex8_digits(before);
    let [q, r, s, t, u, v, w, x] = hex8_digits(after);
    out.put(&[
        b's', b'c', b'o', b'k', b' ', a, b, c, d, e, f, g, h, b' ', i, j, k, l, m, n, o, p, b' ',
        q, r, s, t, u, v, w, x,
    ])
}

// A conditional store that failed: its address.
fn push_scfail<W: TextBuffer>(out: &mut W, address: u32) -> Result<(), NoMemory>
    ensures text { OnOk result (Adds (W.text out.old) (W.text out.new)
        (codes "scfail " ++ hex8 address)) }
    ensures room { UsesRoom 15 (W.room out.old) (W.room out.new) result }
{
    let [a, b, c, d, e, f, g, h] = hex8_digits(address);
    out.put(&[
        b's', b'c', b'f', b'a', b'i', b'l', b' ', a, b, c, d, e, f, g, h,
    ])
}

// An atomic change: its address and the words there before and after.
fn push_amo<W: TextBuffer>(
    out: &mut W,
    address: u32,
    before: u32,
    after: u32,
) -> Result<(), NoMemory>
    ensures text { OnOk result (Adds (W.text out.old) (W.text out.new)
        (codes "amo " ++ hex8 address ++ codes " " ++ hex8 before ++ codes " " ++ hex8 after)) }
    ensures room { UsesRoom 30 (W.room out.old) (W.room out.new) result }
{
    let [a, b, c, d, e, f, g, h] = hex8_digits(address);
    let [i, j, k, l, m, n, o, p] = hex8_digits(before);
    let [q, r, s, t, u, v, w, x] = hex8_digits(after);
    out.put(&[
        b'a', b'm', b'o', b' ', a, b, c, d, e, f, g, h, b' ', i, j, k, l, m, n, o, p, b' ', q, r,
        s, t, u, v, w, x,
    ])
}

/// Puts at the end what an instruction did.
#[inline(always)]
#[tactic(auto, unfolding(text_model::specs::Words::effect_text))]
pub fn push_effect<W: TextBuffer>(out: &mut W, effect: Effect) -> Result<(), NoMemory>
    ensures text { OnOk result (Adds (W.text out.old) (W.text out.new) (effect_text effect)) }
    ensures room { UsesRoom 32 (W.room out.old) (W.room out.new) result }
{
    match effect {
        Effect::Plain => out.put(&[b'p', b'l', b'a', b'i', b'n']),
        Effect::Put { byte } => {
            let [high, low] = hex2_digits(u32::from(byte));
            out.put(&[b'p', b'u', b't', b' ', high, low])
        }
        Effect::Load { address, word } => push_load(out, address, word),
        Effect::Store {
            address,
            before,
            after,
        } => push_store(out, address, before, after),
        Effect::Lr { address, word } => push_lr(out, address, word),
        Effect::ScOk {
            address,
            before,
            after,
        } => push_scok(out, address, before, after),
        Effect::ScFail { address } => push_scfail(out, address),
        Effect::Amo {
            address,
            before,
            after,
        } => push_amo(out, address, before, after),
    }
}

/// Puts at the end why a hart stopped for good.
#[tactic(auto, unfolding(text_model::specs::Words::halt_text))]
pub fn push_halt<W: TextBuffer>(out: &mut W, cause: HaltCause) -> Result<(), NoMemory>
    ensures text { OnOk result (Adds (W.text out.old) (W.text out.new) (halt_text cause)) }
    ensures room { UsesRoom 25 (W.room out.old) (W.room out.new) result }
{
    match cause {
        HaltCause::Exit(code) => push_named(out, b"exit ", code),
        HaltCause::Illegal(word) => push_named_word(out, b"illegal ", word),
        HaltCause::Breakpoint => push_bytes(out, b"break"),
        HaltCause::UnknownCall(number) => push_named(out, b"call ", number),
        HaltCause::MisalignedTarget(address) => push_named_word(out, b"badtarget ", address),
        HaltCause::FetchOutside(address) => push_named_word(out, b"nofetch ", address),
        HaltCause::MisalignedAccess(address) => push_named_word(out, b"misaligned ", address),
        HaltCause::LoadOutside(address) => push_named_word(out, b"noload ", address),
        HaltCause::StoreOutside(address) => push_named_word(out, b"nostore ", address),
    }
}

/// Puts at the end how a hart stands.
#[tactic(auto, unfolding(text_model::specs::Words::state_text))]
pub fn push_state<W: TextBuffer>(out: &mut W, halt: Option<HaltCause>) -> Result<(), NoMemory>
    ensures text { OnOk result (Adds (W.text out.old) (W.text out.new) (state_text halt)) }
    ensures room { UsesRoom 25 (W.room out.old) (W.room out.new) result }
{
    match halt {
        None => push_bytes(out, b"running"),
        Some(cause) => push_halt(out, cause),
    }
}
