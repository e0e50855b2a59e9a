//! The sections of a text: the header, the initial state, the program and the final section.

ghost use Rattle.std.specs.Prelude.{◌≡◌, ◌+◌, ◌≤◌, drop, length, nat_eq, take};
ghost use Rattle.std.specs.List.{position_or_len};
ghost use Rattle.litmus_model.specs.Refusing.{and_then};
ghost use Rattle.litmus_model.specs.Comments.{without_comments};
ghost use Rattle.litmus_model.specs.Sections.{behind_header, behind_init, is_final, sections_in, sections_of};
ghost use Rattle.litmus_text.specs.Kept.{sections_from};
ghost use Rattle.litmus_text.specs.Reads.{Reads};

use crate::bytes::is;
use crate::comments::without_comments;
use crate::header::{head_words, line_feeds, name_of};
use crate::judged::{Unread, in_line};
use crate::tokens::{copied, place_of, tokens_of};
use litmus_model::{Fault, Part, Token};
use std::alloc::Global;

/// The sections of a text, and the lines of what is between them.
#[derive(Drop)]
pub struct Sections {
    pub name: Vec<u8>,
    pub init: Vec<Token>,
    /// The line of the `}`.
    pub closing: u32,
    pub program: Vec<Token>,
    /// The line of the final section's first token.
    pub condition_line: u32,
    /// The final section.
    pub last: Vec<Token>,
    /// The line of the text's end.
    pub end: u32,
}

/// A token with which the final section begins.
fn is_final(token: &Token) -> bool
    ensures { result ≡ is_final token.now }
{
    match &token.part {
        Part::Word(word) => {
            let bytes = word.bytes();
            is(bytes, "exists")
                || is(bytes, "forall")
                || is(bytes, "locations")
                || is(bytes, "filter")
        }
        Part::Mark(byte) => *byte == b'~',
    }
}

#[tactic(auto, using(litmus_model::proofs::Searches::position_search))]
fn place_of_final(tokens: &[Token]) -> usize
    ensures place { result ≡ position_or_len is_final tokens.now }
    ensures inside { result ≤ length tokens.now }
{
    for (place, token) in tokens.iter().enumerate() {
        if is_final(token) {
            return place;
        }
    }
    tokens.len()
}

#[tactic(auto, using(litmus_model::proofs::Searches::position_search))]
fn place_of_brace(text: &[u8]) -> usize
    ensures place { result ≡ position_or_len (λ b. nat_eq b 123) text.now }
    ensures inside { result ≤ length text.now }
{
    for (place, byte) in text.iter().enumerate() {
        if *byte == b'{' {
            return place;
        }
    }
    text.len()
}

/// The sections whose program has so many of these tokens; the final section is not empty.
#[tactic(auto, using(crate::proofs::Cuts::no_final, crate::proofs::Cuts::some_final))]
fn with_final(
    alloc: Global,
    name: Vec<u8>,
    init: Vec<Token>,
    closing: u32,
    end: u32,
    tokens: &[Token],
) -> Result<Sections, Unread>
    ensures { Reads sections_from (behind_init name.items init.items closing end tokens.now) result }
{
    let at = place_of_final(tokens);
    if at == tokens.len() {
        return Err(Unread::Refused(in_line(end, Fault::NoCondition)));
    }
    let condition_line = tokens[at].line;
    let program = copied(alloc, &tokens[..at])?;
    let last = copied(alloc, &tokens[at..])?;
    Ok(Sections {
        name,
        init,
        closing,
        program,
        condition_line,
        last,
        end,
    })
}

/// The sections of tokens, which follow a `{` in the line `begun`.
#[tactic(auto, using(crate::proofs::Cuts::open_init, crate::proofs::Cuts::closed_init))]
fn sections_in(
    alloc: Global,
    name: Vec<u8>,
    begun: u32,
    end: u32,
    tokens: &[Token],
) -> Result<Sections, Unread>
    ensures { Reads sections_from (sections_in name.items begun end tokens.now) result }
{
    let at = place_of(b'}', tokens);
    if at == tokens.len() {
        return Err(Unread::Refused(in_line(begun, Fault::OpenInit)));
    }
    let closing = tokens[at].line;
    let init = copied(alloc, &tokens[..at])?;
    with_final(alloc, name, init, closing, end, &tokens[at + 1..])
}

/// The sections of what follows the header.
#[tactic(auto, using(crate::proofs::Cuts::no_brace, crate::proofs::Cuts::some_brace, crate::proofs::Cuts::bad_tokens))]
fn behind_header(
    alloc: Global,
    name: Vec<u8>,
    begun: u32,
    end: u32,
    text: &[u8],
) -> Result<Sections, Unread>
    requires { begun + length text.now ≤ 131072 }
    ensures { Reads sections_from (behind_header name.items begun end text.now) result }
{
    if text.is_empty() {
        return Err(Unread::Refused(in_line(end, Fault::NoInit)));
    }
    let tokens = tokens_of(alloc, begun, &text[1..])?;
    sections_in(alloc, name, begun, end, &tokens)
}

/// The sections of a text without comments.
#[tactic(auto, using(crate::proofs::Cuts::bad_header, crate::proofs::Cuts::good_header))]
fn plain_sections(alloc: Global, text: &[u8]) -> Result<Sections, Unread>
    requires { length text.now ≤ 65536 }
    ensures { Reads sections_from (sections_of text.now) result }
{
    let at = place_of_brace(text);
    let head = &text[..at];
    let last = 1 + line_feeds(head);
    let words = head_words(alloc, head)?;
    let name = name_of(alloc, last, &words)?;
    behind_header(alloc, name, last, 1 + line_feeds(text), &text[at..])
}

/// The sections of a text.
#[tactic(auto, using(crate::proofs::Cuts::bad_comments, crate::proofs::Cuts::good_comments, crate::proofs::Cuts::as_long))]
pub fn sections_of(alloc: Global, text: &[u8]) -> Result<Sections, Unread>
    requires { length text.now ≤ 65536 }
    ensures { Reads sections_from (and_then (without_comments text.now) sections_of) result }
{
    let bytes = without_comments(alloc, text)?;
    plain_sections(alloc, &bytes)
}
