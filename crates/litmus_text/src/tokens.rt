//! Tokens.

ghost use Rattle.std.specs.Prelude.{◌≡◌, ◌+◌, ◌++◌, ◌∷◌, [], ◌≤◌, IfOk, OnOk, length};
ghost use Rattle.std.specs.List.{position_or_len};
ghost use Rattle.litmus_model.specs.Tokens.{ended, is_mark, judged_token, judged_tokens, mark_token, tokens_of, word_token, word_with};
ghost use Rattle.litmus_text.specs.Reads.{Adds, Reads, ReadsList};

use crate::bytes::{is_blank, is_line_feed, is_mark_byte, is_word_byte};
use crate::comments::next_line;
use crate::judged::{Unread, in_line};
use elf_load::of_ddm_types::NoMemory;
use litmus_model::{Fault, Name, Part, Token};
use std::alloc::Global;

const LONGEST_WORD: usize = 127;

pub(crate) fn push_token(tokens: &mut Vec<Token>, token: &Token) -> Result<(), NoMemory>
    ensures { OnOk result (tokens.new.items ≡ tokens.old.items ++ token.now ∷ []) }
{
    tokens.extend_from_slice(&[*token])?;
    Ok(())
}

/// Adds the token of a word, where it has bytes.
#[tactic(auto, using(crate::proofs::Texts::no_word, crate::proofs::Texts::one_word, crate::proofs::Texts::long_word))]
fn push_word(tokens: &mut Vec<Token>, line: u32, word: &[u8]) -> Result<(), Unread>
    ensures { Adds (judged_tokens (word_token line word.now)) tokens.old.items tokens.new.items result }
{
    if word.is_empty() {
        return Ok(());
    }
    if word.len() > LONGEST_WORD {
        return Err(Unread::Refused(in_line(line, Fault::LongWord)));
    }
    let part = Part::Word(Name::new(word));
    Ok(push_token(tokens, &Token { line, part })?)
}

/// Adds the token of a byte that is in no word.
#[tactic(auto, using(crate::proofs::Texts::no_mark, crate::proofs::Texts::one_mark, crate::proofs::Texts::bad_mark))]
fn push_mark(tokens: &mut Vec<Token>, line: u32, byte: u8) -> Result<(), Unread>
    ensures { Adds (judged_tokens (mark_token line byte)) tokens.old.items tokens.new.items result }
{
    if is_blank(byte) || is_line_feed(byte) {
        return Ok(());
    }
    if !is_mark_byte(byte) {
        return Err(Unread::Refused(in_line(line, Fault::BadByte)));
    }
    let part = Part::Mark(byte);
    Ok(push_token(tokens, &Token { line, part })?)
}

/// Adds the tokens that end with a byte, where these bytes of a word are before it.
#[tactic(auto, using(crate::proofs::Texts::token_ends))]
fn push_ended(tokens: &mut Vec<Token>, line: u32, word: &[u8], byte: u8) -> Result<(), Unread>
    ensures { Adds (judged_tokens (ended line word.now byte)) tokens.old.items tokens.new.items result }
{
    if is_word_byte(byte) {
        return Ok(());
    }
    push_word(tokens, line, word)?;
    push_mark(tokens, line, byte)
}

/// The bytes of a word that are before the next byte.
fn go_on(word: &mut Vec<u8>, byte: u8) -> Result<(), NoMemory>
    ensures { OnOk result (word.new.items ≡ word_with word.old.items byte) }
{
    if is_word_byte(byte) {
        word.push(byte)?;
    } else {
        word.clear();
    }
    Ok(())
}

/// The tokens of a text that begins in this line.
#[tactic(auto, using(crate::proofs::Judging::after_or_refused, crate::proofs::Texts::token_steps))]
pub(crate) fn tokens_of(alloc: Global, first: u32, text: &[u8]) -> Result<Vec<Token>, Unread>
    requires { first + length text.now ≤ 131072 }
    ensures { ReadsList (tokens_of first text.now) result }
{
    let mut tokens = Vec::new(alloc);
    let mut word = Vec::new(alloc);
    let mut line = first;
    for byte in text {
        push_ended(&mut tokens, line, &word, *byte)?;
        go_on(&mut word, *byte)?;
        line = next_line(line, *byte);
    }
    push_word(&mut tokens, line, &word)?;
    Ok(tokens)
}

pub fn is_mark(mark: u8, token: &Token) -> bool
    ensures { result ≡ is_mark mark token.now }
{
    match token.part {
        Part::Word(_) => false,
        Part::Mark(byte) => byte == mark,
    }
}

/// How many tokens are before the first mark of this kind.
#[tactic(auto, using(litmus_model::proofs::Searches::position_search))]
pub fn place_of(mark: u8, tokens: &[Token]) -> usize
    ensures place { result ≡ position_or_len (is_mark mark) tokens.now }
    ensures inside { result ≤ length tokens.now }
{
    for (place, token) in tokens.iter().enumerate() {
        if is_mark(mark, token) {
            return place;
        }
    }
    tokens.len()
}

pub fn copied(alloc: Global, tokens: &[Token]) -> Result<Vec<Token>, NoMemory>
    ensures { IfOk result (λ copy. copy.items ≡ tokens.now) }
{
    Ok(Vec::from_slice(alloc, tokens)?)
}
