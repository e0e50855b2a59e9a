//! The header: its first line with a word is `RISCV`, the name, and whatever.

ghost use Rattle.std.specs.Prelude.{◌≡◌, ◌+◌, ◌++◌, ◌≤◌, [], IfOk, OnOk, length};
ghost use Rattle.std.specs.List.{list_all};
ghost use Rattle.litmus_model.specs.Bytes.{is_between};
ghost use Rattle.litmus_model.specs.Sections.{ended_word, head_word, head_word_with, head_words, is_between_words};
ghost use Rattle.litmus_model.specs.Sections.{is_test_name, line_feeds, name_in, name_of};
ghost use Rattle.litmus_text.specs.Reads.{ReadsList};

use crate::bytes::{is, is_blank, is_line_feed};
use crate::comments::next_line;
use crate::judged::{Unread, in_line};
use elf_load::of_ddm_types::NoMemory;
use litmus_model::Fault;
use std::alloc::Global;
use std::marker::Model;

const LONGEST_NAME: usize = 255;

/// How many lines end in a text.
#[tactic(auto, using(crate::proofs::Headers::feeds_next, crate::proofs::Headers::feeds_done))]
pub(crate) fn line_feeds(text: &[u8]) -> u32
    requires { length text.now ≤ 65536 }
    ensures feeds { result ≡ line_feeds text.now }
    ensures few { result ≤ length text.now }
{
    let mut count = 0;
    for byte in text {
        count = next_line(count, *byte);
    }
    count
}

/// A word between blanks, with its line.
#[derive(Drop)]
pub(crate) struct HeadWord {
    line: u32,
    bytes: Vec<u8>,
}

impl Model for HeadWord {
    ghost use Rattle.litmus_model.specs.Sections.{HeadWord};

    ghost Value = { HeadWord };

    ghost view = { λ w. record { line = w.line; bytes = w.bytes.items } };
}

fn copied(alloc: Global, bytes: &[u8]) -> Result<Vec<u8>, NoMemory>
    ensures { IfOk result (λ copy. copy.items ≡ bytes.now) }
{
    Ok(Vec::from_slice(alloc, bytes)?)
}

/// Adds a word, where it has bytes.
#[tactic(auto, using(crate::proofs::Headers::no_word, crate::proofs::Headers::one_word))]
fn push_word(
    alloc: Global,
    words: &mut Vec<HeadWord>,
    line: u32,
    word: &[u8],
) -> Result<(), NoMemory>
    ensures { OnOk result (words.new.items ≡ words.old.items ++ head_word line word.now) }
{
    if word.is_empty() {
        return Ok(());
    }
    let bytes = copied(alloc, word)?;
    words.push(HeadWord { line, bytes })?;
    Ok(())
}

fn is_between_words(byte: u8) -> bool
    ensures { result ≡ is_between_words byte }
{
    is_blank(byte) || is_line_feed(byte)
}

/// Adds the word that ends with a byte, where these bytes of it are before.
#[tactic(auto, using(crate::proofs::Headers::nothing_ends))]
fn push_ended(
    alloc: Global,
    words: &mut Vec<HeadWord>,
    line: u32,
    word: &[u8],
    byte: u8,
) -> Result<(), NoMemory>
    ensures { OnOk result (words.new.items ≡ words.old.items ++ ended_word line word.now byte) }
{
    if !is_between_words(byte) {
        return Ok(());
    }
    push_word(alloc, words, line, word)
}

/// The bytes of a word that are before the next byte.
fn go_on(word: &mut Vec<u8>, byte: u8) -> Result<(), NoMemory>
    ensures { OnOk result (word.new.items ≡ head_word_with word.old.items byte) }
{
    if is_between_words(byte) {
        word.clear();
    } else {
        word.push(byte)?;
    }
    Ok(())
}

/// The words of a header.
#[tactic(auto, using(crate::proofs::Headers::words_next, crate::proofs::Headers::words_done))]
pub(crate) fn head_words(alloc: Global, text: &[u8]) -> Result<Vec<HeadWord>, NoMemory>
    requires { length text.now ≤ 65536 }
    ensures { IfOk result (λ words. words.items ≡ head_words 1 [] text.now) }
{
    let mut words = Vec::new(alloc);
    let mut word = Vec::new(alloc);
    let mut line = 1;
    for byte in text {
        push_ended(alloc, &mut words, line, &word, *byte)?;
        go_on(&mut word, *byte)?;
        line = next_line(line, *byte);
    }
    push_word(alloc, &mut words, line, &word)?;
    Ok(words)
}

#[tactic(auto, using(crate::proofs::Headers::all_next, crate::proofs::Headers::all_failed, crate::proofs::Headers::all_done))]
fn are_printed(name: &[u8]) -> bool
    ensures { result ≡ list_all (is_between 33 126) name.now }
{
    for byte in name {
        if *byte < 33 || 126 < *byte {
            return false;
        }
    }
    true
}

fn is_test_name(name: &[u8]) -> bool
    ensures { result ≡ is_test_name name.now }
{
    name.len() <= LONGEST_NAME && are_printed(name)
}

/// The second word of the line.
#[tactic(auto, using(crate::proofs::Headers::name_cases))]
fn name_in(alloc: Global, line: u32, words: &[HeadWord]) -> Result<Vec<u8>, Unread>
    ensures { ReadsList (name_in line words.now) result }
{
    if words.is_empty() {
        return Err(Unread::Refused(in_line(line, Fault::BadName)));
    }
    let word = &words[0];
    if word.line != line || !is_test_name(&word.bytes) {
        return Err(Unread::Refused(in_line(line, Fault::BadName)));
    }
    Ok(copied(alloc, &word.bytes)?)
}

/// The name of a test whose header ends in the line `last`.
#[tactic(auto, using(crate::proofs::Headers::no_words, crate::proofs::Headers::riscv_word, crate::proofs::Headers::other_word))]
pub(crate) fn name_of(alloc: Global, last: u32, words: &[HeadWord]) -> Result<Vec<u8>, Unread>
    ensures { ReadsList (name_of last words.now) result }
{
    if words.is_empty() {
        return Err(Unread::Refused(in_line(last, Fault::OtherArchitecture)));
    }
    let word = &words[0];
    if !is(&word.bytes, "RISCV") {
        return Err(Unread::Refused(in_line(word.line, Fault::OtherArchitecture)));
    }
    name_in(alloc, word.line, &words[1..])
}
