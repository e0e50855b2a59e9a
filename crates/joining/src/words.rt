//! The words of a table's lines.

ghost use Rattle.std.specs.Prelude.{◌≡◌, ◌≤◌, ◌<◌, ◌+◌, ◌∷◌, [], take, drop, length, nat_eq, position, option_map, bytes_eq, codes, IfSome};
ghost use Rattle.joining.specs.Said.{heading_said, row_said};
ghost use Rattle.joining.specs.TextModel.Schedule.{pieces_at};
ghost use Rattle.join_model.specs.Table.{heading_of_words, heading_with, kind_named, line_of_words, line_with, number_in};

use crate::of_ddm_text::read_decimal;
use crate::of_join_model::TableKind;

const OUTCOMES: &[u8] = b"outcomes";

const SURVEY: &[u8] = b"survey";

const RUNS: &[u8] = b"runs";

const OUTCOME: &[u8] = b"outcome";

fn place_of(text: &[u8], separator: u8) -> Option<usize>
    ensures { result ≡ position (λ byte. nat_eq byte separator) text.now }
{
    text.iter().position(|byte| *byte == separator)
}

/// The number of bytes of the first piece.
pub fn piece_end(text: &[u8], separator: u8) -> usize
    ensures within { result ≤ length text.now }
    ensures last { result ≡ length text.now → pieces_at separator text.now ≡ text.now ∷ [] }
    ensures more { result < length text.now →
        pieces_at separator text.now ≡ take result text.now ∷ pieces_at separator (drop (result + 1) text.now) }
    ensures here { result < length text.now → drop result text.now ≡ separator ∷ drop (result + 1) text.now }
{
    match place_of(text, separator) {
        Some(place) => place,
        None => text.len(),
    }
}

fn number(word: &[u8], most: u64) -> Option<u64>
    ensures is { result ≡ number_in most word.now }
    ensures most { IfSome result (λ n. n ≤ most) }
{
    match read_decimal(word, most) {
        Ok(n) => Some(n),
        Err(_) => None,
    }
}

fn is_outcome(word: &[u8]) -> bool
    ensures { result ≡ bytes_eq word.now (codes "outcome") }
{
    word == OUTCOME
}

fn kind_named(word: &[u8]) -> Option<TableKind>
    ensures { result ≡ kind_named word.now }
{
    if word == OUTCOMES {
        Some(TableKind::Outcomes)
    } else if word == SURVEY {
        Some(TableKind::Survey)
    } else {
        None
    }
}

/// The first line of a table: of so many runs so many lines follow.
#[derive(Clone, Copy)]
pub struct Heading {
    pub kind: TableKind,
    pub lines: u64,
    pub runs: u64,
}

fn heading_with(kind: &[u8], lines: &[u8], runs: &[u8]) -> Option<Heading>
    ensures { option_map heading_said result
        ≡ heading_with (kind_named kind.now) (number_in 18446744073709551615 lines.now)
        (number_in 18446744073709551615 runs.now) }
{
    let kind = kind_named(kind)?;
    let lines = number(lines, u64::MAX)?;
    let runs = number(runs, u64::MAX)?;
    Some(Heading { kind, lines, runs })
}

#[tactic(auto, unfolding(join_model::specs::Table::heading_of_words))]
fn heading_of_four(kind: &[u8], lines: &[u8], mark: &[u8], runs: &[u8]) -> Option<Heading>
    ensures { option_map heading_said result ≡ heading_of_words (kind.now ∷ lines.now ∷ mark.now ∷ runs.now ∷ []) }
{
    if mark == RUNS {
        heading_with(kind, lines, runs)
    } else {
        None
    }
}

#[tactic(auto, unfolding(join_model::specs::Table::heading_of_words))]
fn heading_behind_three(kind: &[u8], lines: &[u8], mark: &[u8], rest: &[u8]) -> Option<Heading>
    ensures { option_map heading_said result ≡ heading_of_words (kind.now ∷ lines.now ∷ mark.now ∷ pieces_at 32 rest.now) }
{
    if piece_end(rest, b' ') == rest.len() {
        heading_of_four(kind, lines, mark, rest)
    } else {
        None
    }
}

#[tactic(auto, unfolding(join_model::specs::Table::heading_of_words))]
fn heading_behind_two(kind: &[u8], lines: &[u8], rest: &[u8]) -> Option<Heading>
    ensures { option_map heading_said result ≡ heading_of_words (kind.now ∷ lines.now ∷ pieces_at 32 rest.now) }
{
    let end = piece_end(rest, b' ');
    if end == rest.len() {
        None
    } else {
        heading_behind_three(kind, lines, &rest[..end], &rest[end + 1..])
    }
}

#[tactic(auto, unfolding(join_model::specs::Table::heading_of_words))]
fn heading_behind_one(kind: &[u8], rest: &[u8]) -> Option<Heading>
    ensures { option_map heading_said result ≡ heading_of_words (kind.now ∷ pieces_at 32 rest.now) }
{
    let end = piece_end(rest, b' ');
    if end == rest.len() {
        None
    } else {
        heading_behind_two(kind, &rest[..end], &rest[end + 1..])
    }
}

/// What the first line says.
#[tactic(auto, unfolding(join_model::specs::Table::heading_of_words))]
pub fn heading_of(line: &[u8]) -> Option<Heading>
    ensures { option_map heading_said result ≡ heading_of_words (pieces_at 32 line.now) }
{
    let end = piece_end(line, b' ');
    if end == line.len() {
        None
    } else {
        heading_behind_one(&line[..end], &line[end + 1..])
    }
}

/// A line of a table, with the bytes of its outcome where they lie.
#[derive(Clone, Copy)]
pub struct Row<'a> {
    pub times: u64,
    pub seed: u64,
    pub outcome: &'a [u8],
}

fn row_with<'a>(times: &[u8], seed: &[u8], outcome: &'a [u8], left: u64) -> Option<Row<'a>>
    ensures is { option_map row_said result ≡ line_with (number_in left times.now) (number_in 18446744073709551615 seed.now) outcome.now }
    ensures within { IfSome result (λ row. row.times ≤ left) }
{
    let times = number(times, left)?;
    let seed = number(seed, u64::MAX)?;
    if times == 0 {
        return None;
    }
    Some(Row {
        times,
        seed,
        outcome,
    })
}

#[tactic(auto, unfolding(join_model::specs::Table::line_of_words))]
fn row_behind_two<'a>(mark: &[u8], times: &[u8], rest: &'a [u8], left: u64) -> Option<Row<'a>>
    ensures is { option_map row_said result ≡ line_of_words left (mark.now ∷ times.now ∷ pieces_at 32 rest.now) }
    ensures within { IfSome result (λ row. row.times ≤ left) }
{
    let end = piece_end(rest, b' ');
    if is_outcome(mark) {
        row_with(times, &rest[..end], &rest[end..], left)
    } else {
        None
    }
}

#[tactic(auto, unfolding(join_model::specs::Table::line_of_words))]
fn row_behind_one<'a>(mark: &[u8], rest: &'a [u8], left: u64) -> Option<Row<'a>>
    ensures is { option_map row_said result ≡ line_of_words left (mark.now ∷ pieces_at 32 rest.now) }
    ensures within { IfSome result (λ row. row.times ≤ left) }
{
    let end = piece_end(rest, b' ');
    if end == rest.len() {
        None
    } else {
        row_behind_two(mark, &rest[..end], &rest[end + 1..], left)
    }
}

/// What a line of a table says, where so many runs are left.
#[tactic(auto, unfolding(join_model::specs::Table::line_of_words))]
pub fn row_of(line: &[u8], left: u64) -> Option<Row<'_>>
    ensures is { option_map row_said result ≡ line_of_words left (pieces_at 32 line.now) }
    ensures within { IfSome result (λ row. row.times ≤ left) }
{
    let end = piece_end(line, b' ');
    if end == line.len() {
        None
    } else {
        row_behind_one(&line[..end], &line[end + 1..], left)
    }
}
