//! The bytes that a test's text is made of.

ghost use Rattle.std.specs.Prelude.{◌≡◌, bytes_eq};
ghost use Rattle.litmus_model.specs.Bytes.{is_blank, is_digit, is_letter, is_line_feed, is_mark_byte, is_word_byte};
ghost use Rattle.litmus_model.specs.Comments.{first_is};
ghost use Rattle.litmus_model.specs.Words.{begins_with_digit, is_name};

pub(crate) fn is_line_feed(byte: u8) -> bool
    ensures { result ≡ is_line_feed byte }
{
    byte == b'\n'
}

/// Space, tab, carriage return.
pub(crate) fn is_blank(byte: u8) -> bool
    ensures { result ≡ is_blank byte }
{
    byte == b' ' || byte == b'\t' || byte == b'\r'
}

pub fn is_digit(byte: u8) -> bool
    ensures { result ≡ is_digit byte }
{
    b'0' <= byte && byte <= b'9'
}

fn is_letter(byte: u8) -> bool
    ensures { result ≡ is_letter byte }
{
    b'a' <= byte && byte <= b'z' || b'A' <= byte && byte <= b'Z'
}

pub(crate) fn is_word_byte(byte: u8) -> bool
    ensures { result ≡ is_word_byte byte }
{
    is_letter(byte) || is_digit(byte) || byte == b'_' || byte == b'.'
}

#[tactic(auto, unfolding(litmus_model::specs::Bytes::is_mark_byte))]
pub(crate) fn is_mark_byte(byte: u8) -> bool
    ensures { result ≡ is_mark_byte byte }
{
    match byte {
        b'{'
        | b'}'
        | b'('
        | b')'
        | b'['
        | b']'
        | b';'
        | b'|'
        | b','
        | b':'
        | b'='
        | b'-'
        | b'~'
        | b'*'
        | b'/'
        | b'\\' => true,
        _ => false,
    }
}

pub(crate) fn first_is(byte: u8, bytes: &[u8]) -> bool
    ensures { result ≡ first_is byte bytes.now }
{
    match bytes {
        [first, ..] => *first == byte,
        [] => false,
    }
}

/// Whether a word is this name.
pub fn is(word: &[u8], name: &str) -> bool
    ensures { result ≡ bytes_eq word.now name.now }
{
    *word == *name.as_bytes()
}

pub fn begins_with_digit(word: &[u8]) -> bool
    ensures { result ≡ begins_with_digit word.now }
{
    match word {
        [first, ..] => is_digit(*first),
        [] => false,
    }
}

/// Whether a word begins with a letter or `_`.
pub fn is_name(word: &[u8]) -> bool
    ensures { result ≡ is_name word.now }
{
    match word {
        [first, ..] => is_letter(*first) || *first == b'_',
        [] => false,
    }
}
