//! A text without its comments.

ghost use Rattle.std.specs.Prelude.{◌≡◌, ◌+◌, ◌++◌, ◌∷◌, [], ◌<◌, ◌≤◌, OnOk, length};
ghost use Rattle.litmus_model.specs.Comments.{begins, behind_byte, ends, next_depth, next_line, shown, without_comments};
ghost use Rattle.litmus_text.specs.Reads.{ReadsList};

use crate::bytes::{first_is, is_line_feed};
use crate::judged::{Unread, in_line};
use elf_load::of_ddm_types::NoMemory;
use litmus_model::{Commented, Fault};
use std::alloc::Global;

/// Whether a comment begins with this byte, before these others.
fn begins(so_far: &Commented, byte: u8, others: &[u8]) -> bool
    ensures { result ≡ begins so_far.now byte others.now }
{
    !so_far.half && byte == b'(' && first_is(b'*', others)
}

fn ends(so_far: &Commented, byte: u8, others: &[u8]) -> bool
    ensures { result ≡ ends so_far.now byte others.now }
{
    !so_far.half && so_far.depth > 0 && byte == b'*' && first_is(b')', others)
}

pub(crate) fn next_line(line: u32, byte: u8) -> u32
    requires { line < 4294967295 }
    ensures next { result ≡ next_line line byte }
    ensures small { result ≤ line + 1 }
{
    if is_line_feed(byte) { line + 1 } else { line }
}

fn next_depth(so_far: &Commented, byte: u8, others: &[u8]) -> u32
    requires { so_far.now.depth < 4294967295 }
    ensures next { result ≡ next_depth so_far.now byte others.now }
    ensures small { result ≤ so_far.now.depth + 1 }
{
    if begins(so_far, byte, others) {
        so_far.depth + 1
    } else if ends(so_far, byte, others) {
        so_far.depth - 1
    } else {
        so_far.depth
    }
}

/// How far a text has come with one byte more.
#[tactic(auto, unfolding(litmus_model::specs::Comments::behind_byte))]
fn behind_byte(so_far: &Commented, byte: u8, others: &[u8]) -> Commented
    requires line { so_far.now.line < 4294967295 }
    requires depth { so_far.now.depth < 4294967295 }
    ensures next { result ≡ behind_byte so_far.now byte others.now }
    ensures line { result.line ≤ so_far.now.line + 1 }
    ensures depth { result.depth ≤ so_far.now.depth + 1 }
{
    let begins = begins(so_far, byte, others);
    Commented {
        line: next_line(so_far.line, byte),
        depth: next_depth(so_far, byte, others),
        begun: if begins && so_far.depth == 0 {
            so_far.line
        } else {
            so_far.begun
        },
        half: begins || ends(so_far, byte, others),
    }
}

/// What stands for a byte.
#[tactic(auto, unfolding(litmus_model::specs::Comments::shown))]
fn shown(so_far: &Commented, byte: u8, others: &[u8]) -> u8
    ensures { result ≡ shown so_far.now byte others.now }
{
    if !is_line_feed(byte) && (so_far.depth > 0 || so_far.half || begins(so_far, byte, others)) {
        b' '
    } else {
        byte
    }
}

fn push_byte(bytes: &mut Vec<u8>, byte: u8) -> Result<(), NoMemory>
    ensures { OnOk result (bytes.new.items ≡ bytes.old.items ++ byte ∷ []) }
{
    bytes.push(byte)?;
    Ok(())
}

/// A text whose comments are blanks.
#[tactic(auto, using(crate::proofs::Judging::after_or_refused, crate::proofs::Texts::text_steps))]
pub(crate) fn without_comments(alloc: Global, text: &[u8]) -> Result<Vec<u8>, Unread>
    requires { length text.now ≤ 65536 }
    ensures { ReadsList (without_comments text.now) result }
{
    let mut bytes = Vec::new(alloc);
    let mut so_far = Commented {
        line: 1,
        depth: 0,
        begun: 1,
        half: false,
    };
    for at in 0..text.len() {
        let others = &text[at + 1..];
        push_byte(&mut bytes, shown(&so_far, text[at], others))?;
        so_far = behind_byte(&so_far, text[at], others);
    }
    if so_far.depth > 0 {
        return Err(Unread::Refused(in_line(so_far.begun, Fault::OpenComment)));
    }
    Ok(bytes)
}
