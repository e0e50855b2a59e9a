//! A schedule is read in pieces.

ghost use Rattle.std.specs.Prelude.{◌≡◌, ◌+◌, ◌*◌, ◌<◌, ◌≤◌, ℕ, List, [], ◌++◌, IfOk, IsOk, OnErr, drop, length};
ghost use Rattle.std.specs.Prelude.{nat_eq, position, take, vec_capacity, vec_len};
ghost use Rattle.schedule_log.specs.DdmTypes.declared.turns.Turn.{Turn as OneTurn};
ghost use Rattle.schedule_log.specs.Reader.{FeedGives, IsInLine, LinesRead, ReadUpTo, begun, begun_behind, finish_of};
ghost use Rattle.schedule_log.specs.Shapes.{shape_view};
ghost use Rattle.text_model.specs.Schedule.{held_of};

use crate::of_ddm_types::{NoMemory, Turn};
use crate::refusal::FeedError;
use crate::seen::SeenLines;
use crate::standing::Standing;
use crate::steps::{MOST_TURNS, Step, first_step, remembered};
use std::alloc::Global;
use std::marker::Model;
use text_model::ScheduleRefusal;
use tree_config::Shape;

/// The fewest bytes of a line that is remembered, with its line feed.
const LEAST_BYTES: usize = 5;

/// Places for turns are taken for so many bytes of a text at a time, so that a piece behind a line that isn't whole needs no more than
/// the one before.
const ROUND_BYTES: usize = 8192;

/// So many places.
const ROUND_PLACES: usize = ROUND_BYTES / LEAST_BYTES + 2;

/// What the lines of a text come to: the number of turns so far, how many of them are lines of the text, where the line begins
/// that isn't whole, and how far the text has come.
#[derive(Clone, Copy)]
pub(crate) struct Lines {
    made: u32,
    lines: u32,
    kept: usize,
    standing: Standing,
}

// Puts the turns of lines that are remembered at the end, up to the first line that isn't, behind `made` others. Answers how many turns
// there are then, and what is left of the text. Nothing is called, so that the processor's registers hold all, and at no line it is asked
// whether one turn more may come: where the text might have too many, all of it is left.
#[inline(never)]
fn read_remembered<'a>(
    seen: &SeenLines,
    made: u32,
    text: &'a [u8],
    turns: &mut Vec<Turn>,
) -> (u32, &'a [u8])
    requires few { made ≤ 1048576 }
    requires room { 5 * vec_len turns.old + length text.now < 5 * vec_capacity turns.old }
    ensures few { result.0 ≤ 1048576 }
    ensures room { vec_len turns.new < vec_capacity turns.new }
    ensures lines { (lines first : ℕ) (whole : List ℕ) (before : List OneTurn) →
        ReadUpTo seen.now lines first whole before made text.now turns.old.items →
        ReadUpTo seen.now lines first whole before result.0 result.1.now turns.new.items }
{
    if text.len() >= LEAST_BYTES * (MOST_TURNS - made) as usize {
        return (made, text);
    }
    let places = seen.places();
    let mut made = made;
    let mut left = text;
    'lines: while let Some((line, used)) = remembered(places, left) {
        turns.push_reserved(line.turn());
        made += 1;
        left = &left[used..];
    }
    (made, left)
}

// Puts the turns of a text's whole lines at the end, up to the first that is refused.
#[inline(never)]
fn read_lines(
    seen: &mut SeenLines,
    first_lines: u32,
    first: u32,
    text: &[u8],
    turns: &mut Vec<Turn>,
) -> Result<Lines, NoMemory>
    requires lines { first_lines ≤ first }
    requires made { first ≤ 1048576 }
    ensures ok { IfOk result (LinesRead seen.old first_lines first text.now turns.old.items turns.new.items) }
    ensures err { OnErr result (take (length turns.old.items) turns.new.items ≡ turns.old.items) }
    ensures same { seen.new ≡ seen.old }
{
    let mut made = first;
    let mut left = text;
    'lines: loop {
        // There are as many places, but where a line has fewer bytes than any that is remembered.
        turns.reserve(left.len() / LEAST_BYTES + 1)?;
        (made, left) = read_remembered(seen, made, left, turns);
        match first_step(seen, first_lines, first, made, left) {
            Step::Turn { turn, used } => {
                turns.push_reserved(turn);
                made += 1;
                left = &left[used..];
            }
            Step::Stop(standing) => {
                return Ok(Lines {
                    made,
                    lines: first_lines + (made - first),
                    kept: text.len() - left.len(),
                    standing,
                });
            }
        }
    }
}

// Takes the first bytes away.
fn drop_front(bytes: &mut Vec<u8>, count: usize)
    requires { count ≤ vec_len bytes.old }
    ensures { bytes.new.items ≡ drop count bytes.old.items }
{
    let left = bytes.len() - count;
    bytes.copy_within(count.., 0);
    bytes.truncate(left);
}

// How many bytes of a piece are put behind the held ones: none where nothing is held, else those up to its first line feed and with it.
fn to_hold(held: &[u8], piece: &[u8]) -> usize
    ensures within { result ≤ length piece.now }
    ensures ends { result < length piece.now → held_of (held.now ++ take result piece.now) ≡ [] }
{
    if held.is_empty() {
        return 0;
    }
    match line_feed(piece) {
        Some(place) => place + 1,
        None => piece.len(),
    }
}

fn line_feed(text: &[u8]) -> Option<usize>
    ensures { result ≡ position (λ byte. nat_eq byte 10) text.now }
{
    text.iter().position(|byte| *byte == b'\n')
}

// Puts the turns of the whole lines at the end of the bytes that are held and those behind them, each read where it lies. The held ones
// are whole lines, if there are others.
fn read_both(
    seen: &mut SeenLines,
    first_lines: u32,
    first: u32,
    held: &[u8],
    behind: &[u8],
    turns: &mut Vec<Turn>,
) -> Result<Lines, NoMemory>
    requires lines { first_lines ≤ first }
    requires made { first ≤ 1048576 }
    requires ends { 0 < length behind.now → held_of held.now ≡ [] }
    ensures ok { IfOk result (LinesRead seen.old first_lines first (held.now ++ behind.now) turns.old.items turns.new.items) }
    ensures err { OnErr result (take (length turns.old.items) turns.new.items ≡ turns.old.items) }
    ensures same { seen.new ≡ seen.old }
{
    if held.is_empty() {
        return read_lines(seen, first_lines, first, behind, turns);
    }
    let front = read_lines(seen, first_lines, first, held, turns)?;
    if behind.is_empty() {
        return Ok(front);
    }
    match front.standing {
        Standing::InLine => {
            let back = read_lines(seen, front.lines, front.made, behind, turns)?;
            Ok(Lines {
                kept: held.len() + back.kept,
                ..back
            })
        }
        Standing::AtEnd => Ok(Lines {
            standing: Standing::Refused(front.lines + 2, ScheduleRefusal::AfterEnd),
            ..front
        }),
        Standing::Refused(_, _) => Ok(front),
    }
}

// Takes the first bytes away from the held ones and those behind them, and holds what is left.
fn hold_rest(held: &mut Vec<u8>, behind: &[u8], count: usize) -> Result<(), NoMemory>
    requires { count ≤ length (held.old.items ++ behind.now) }
    ensures ok { IsOk result → held.new.items ≡ drop count (held.old.items ++ behind.now) }
    ensures err { OnErr result (held.new.items ≡ held.old.items) }
{
    let passed = count.saturating_sub(held.len());
    held.extend_from_slice(&behind[passed..])?;
    drop_front(held, count - passed);
    Ok(())
}

// Puts the turns of the whole lines of a piece at the end, as of one text with the bytes that are held before it, and holds what is left.
// But for the line that isn't whole, the bytes are read where they lie.
fn read_piece(
    seen: &mut SeenLines,
    lines: u32,
    made: u32,
    held: &mut Vec<u8>,
    piece: &[u8],
    turns: &mut Vec<Turn>,
) -> Result<Lines, NoMemory>
    requires lines { lines ≤ made }
    requires made { made ≤ 1048576 }
    ensures ok { IfOk result (λ read. LinesRead seen.old lines made (held.old.items ++ piece.now) turns.old.items turns.new.items read) }
    ensures rest { IfOk result (λ read. held.new.items ≡ drop read.kept (held.old.items ++ piece.now)) }
    ensures err { OnErr result (take (length turns.old.items) turns.new.items ≡ turns.old.items) }
    ensures held { OnErr result (take (length held.old.items) held.new.items ≡ held.old.items) }
    ensures same { seen.new ≡ seen.old }
{
    turns.reserve(((held.len() + piece.len()) / ROUND_BYTES + 1) * ROUND_PLACES)?;
    let (front, behind) = piece.split_at(to_hold(held, piece));
    held.extend_from_slice(front)?;
    let read = read_both(seen, lines, made, held, behind, turns)?;
    hold_rest(held, behind, read.kept)?;
    Ok(read)
}

/// Reads the text of a schedule, in pieces of any lengths. A contract sees how many turns there are, how many of them are lines so
/// far, the bytes of the line that isn't whole, and how far the text has come.
#[derive(Drop)]
pub struct ScheduleReader {
    held: Vec<u8>,
    made: u32,
    lines: u32,
    standing: Standing,
    seen: SeenLines,
}

impl Model for ScheduleReader {
    ghost use Rattle.std.specs.Prelude.{◌≤◌};
    ghost use Rattle.schedule_log.specs.Reader.{ReaderView, held_by};
    ghost use Rattle.schedule_log.specs.Standings.{standing_of};

    ghost Value = { ReaderView };

    ghost view = { λ r. record {
      made = r.made;
      lines = r.lines;
      held = held_by r.standing r.held.items;
      standing = standing_of r.lines r.standing;
    } };

    ghost invariant = { λ r. (r.lines ≤ r.made) × (r.made ≤ 1048576) };
}

impl ScheduleReader {
    /// Before the first byte of a whole schedule.
    pub fn new(alloc: Global) -> Result<ScheduleReader, NoMemory>
        ensures { IfOk result (λ r. r ≡ begun) }
    {
        ScheduleReader::after(alloc, 0)
    }

    /// Before the first byte of a text that goes on where so many turns were made: its first turn is one more. Lines are counted
    /// from 1 all the same.
    pub fn after(alloc: Global, made: u32) -> Result<ScheduleReader, NoMemory>
        requires { made ≤ 1048576 }
        ensures { IfOk result (λ r. r ≡ begun_behind made) }
    {
        Ok(ScheduleReader {
            held: Vec::new(alloc),
            made,
            lines: 0,
            standing: Standing::InLine,
            seen: SeenLines::new(alloc)?,
        })
    }

    // The same, in a line.
    fn feed_lines(
        &mut self,
        shape: &Shape,
        piece: &[u8],
        turns: &mut Vec<Turn>,
    ) -> Result<(), FeedError>
        requires { IsInLine self.old.standing }
        ensures { FeedGives (shape_view shape.now) self.old piece.now self.new turns.old.items turns.new.items result }
    {
        let held = self.held.len();
        let first = turns.len();
        self.seen.turn_to(shape);
        match read_piece(
            &mut self.seen,
            self.lines,
            self.made,
            &mut self.held,
            piece,
            turns,
        ) {
            Ok(lines) => {
                self.made = lines.made;
                self.lines = lines.lines;
                self.standing = lines.standing;
                lines.standing.answer()
            }
            Err(_) => {
                self.held.truncate(held);
                turns.truncate(first);
                Err(FeedError::NoMemory)
            }
        }
    }

    /// Reads the next piece of the text: puts the turns of the lines that are whole by now at the end, up to the first
    /// line that is refused. A refusal is answered again by every further call; after `NoMemory` all is as before.
    pub fn feed(
        &mut self,
        shape: &Shape,
        piece: &[u8],
        turns: &mut Vec<Turn>,
    ) -> Result<(), FeedError>
        ensures { FeedGives (shape_view shape.now) self.old piece.now self.new turns.old.items turns.new.items result }
    {
        match self.standing {
            Standing::InLine => self.feed_lines(shape, piece, turns),
            Standing::AtEnd if piece.is_empty() => Ok(()),
            Standing::AtEnd => {
                self.standing = Standing::Refused(self.lines + 2, ScheduleRefusal::AfterEnd);
                Err(FeedError::Refused(self.lines + 2, ScheduleRefusal::AfterEnd))
            }
            Standing::Refused(line, refusal) => Err(FeedError::Refused(line, refusal)),
        }
    }

    /// The text ends here.
    pub fn finish(self) -> Result<(), (u32, ScheduleRefusal)>
        ensures { result ≡ finish_of self.standing }
    {
        match self.standing {
            Standing::InLine => Err((self.lines + 1, ScheduleRefusal::NoEnd)),
            Standing::AtEnd => Ok(()),
            Standing::Refused(line, refusal) => Err((line, refusal)),
        }
    }
}
