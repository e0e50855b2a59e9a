//! One line of a schedule is judged.

ghost use Rattle.std.specs.Prelude.{◌≡◌, ◌<◌, ◌≤◌, ◌+◌, ◌-◌, ℕ, All, IfSome, is_none, length, slice_get};
ghost use Rattle.text_model.specs.Schedule.{ShapeView, child_fault, end_with, refusal_of_turn, turn_fault};
ghost use Rattle.schedule_log.specs.Seen.{IsFrontOf, IsSeenAt};
ghost use Rattle.schedule_log.specs.Standings.{standing_of};
ghost use Rattle.schedule_log.specs.Steps.{BeginsWithTurn, IsLine, StepGives, step_by};

use crate::front::Front;
use crate::of_ddm_text::{LineCut, cut_line};
use crate::of_ddm_types::{BusNo, ChildNo, Turn};
use crate::parts::Parts;
use crate::seen::{Seen, SeenLines, line_at};
use crate::spelled::{SPELLED_BYTES, spelled_line};
use crate::standing::Standing;
use crate::words::turn_of_line;
use text_model::ScheduleRefusal;

/// The most turns of a schedule.
pub(crate) const MOST_TURNS: u32 = 1_048_576;

/// The most bytes of a line before its line feed.
const MOST_BYTES: usize = 24;

const END: &[u8] = b"end";

/// What a text begins with: a line that is a turn, with its bytes and its line feed, or what it stops at.
pub(crate) enum Step {
    Turn { turn: Turn, used: usize },
    Stop(Standing),
}

fn child_fault(parts: &Parts, bus: BusNo, child: ChildNo) -> Option<ScheduleRefusal>
    ensures { result ≡ child_fault child (slice_get parts.now.buses bus) }
{
    match parts.children(bus) {
        None => Some(ScheduleRefusal::NoSuchBus),
        Some(children) if child.0 < children => None,
        Some(_) => Some(ScheduleRefusal::NoSuchChild),
    }
}

// What a turn names that the tree doesn't have.
#[tactic(auto, unfolding(text_model::specs::Schedule::turn_fault))]
fn turn_fault(parts: &Parts, turn: Turn) -> Option<ScheduleRefusal>
    ensures { result ≡ turn_fault parts.now turn }
{
    match turn {
        Turn::Hart { hart, .. } if hart.0 < parts.harts() => None,
        Turn::Hart { .. } => Some(ScheduleRefusal::NoSuchHart),
        Turn::Down { bus } if bus.0 < parts.buses() => None,
        Turn::Down { .. } => Some(ScheduleRefusal::NoSuchBus),
        Turn::Request { bus, child } => child_fault(parts, bus, child),
        Turn::Reply { bus, child } => child_fault(parts, bus, child),
        Turn::Leave { bus, child, .. } => child_fault(parts, bus, child),
    }
}

// Whether the tree has what a turn names.
fn has_named(parts: &Parts, turn: Turn) -> bool
    ensures { result ≡ is_none (turn_fault parts.now turn) }
{
    turn_fault(parts, turn).is_none()
}

// Why a turn is refused that comes behind `made` others.
fn refusal_of_turn(parts: &Parts, made: u32, turn: Turn) -> Option<ScheduleRefusal>
    ensures { result ≡ refusal_of_turn parts.now made turn }
{
    if made < MOST_TURNS {
        turn_fault(parts, turn)
    } else {
        Some(ScheduleRefusal::TooManyTurns)
    }
}

// Nothing may come behind the end, which is the line behind so many others.
fn after_end(lines: u32, behind: &[u8]) -> Standing
    requires { lines ≤ 1048576 }
    ensures { standing_of lines result ≡ end_with (lines + 1 + 1) behind.now }
{
    if behind.is_empty() {
        Standing::AtEnd
    } else {
        Standing::Refused(lines + 2, ScheduleRefusal::AfterEnd)
    }
}

// The step of a line that is a turn, with so many bytes.
fn step_of_turn(parts: &Parts, lines: u32, made: u32, turn: Turn, used: usize) -> Step
    requires { lines ≤ 1048576 }
    ensures { result ≡ step_by (refusal_of_turn parts.now made turn) lines turn used }
{
    // A value that was handed on isn't put into another one.
    let judged = turn;
    match refusal_of_turn(parts, made, judged) {
        None => Step::Turn { turn, used },
        Some(refusal) => Step::Stop(Standing::Refused(lines + 1, refusal)),
    }
}

// What a text begins with whose first line has `end` bytes.
fn step_of_line(parts: &Parts, lines: u32, made: u32, text: &[u8], end: usize) -> Step
    requires lines { lines ≤ 1048576 }
    requires line { IsLine text.now end }
    ensures { StepGives parts.now lines made text.now result }
{
    let line = &text[..end];
    if line == END {
        return Step::Stop(after_end(lines, &text[end + 1..]));
    }
    match turn_of_line(line) {
        None => Step::Stop(Standing::Refused(lines + 1, ScheduleRefusal::BadTurn)),
        Some(turn) => step_of_turn(parts, lines, made, turn, end + 1),
    }
}

// The same, of a text whose first line may be spelled in any way.
fn any_step(parts: &Parts, lines: u32, made: u32, text: &[u8]) -> Step
    requires { lines ≤ 1048576 }
    ensures { StepGives parts.now lines made text.now result }
{
    match cut_line(text, 0, MOST_BYTES) {
        LineCut::Line(end) => step_of_line(parts, lines, made, text, end),
        LineCut::LineTooLong => Step::Stop(Standing::Refused(lines + 1, ScheduleRefusal::BadTurn)),
        LineCut::NoEndOfLine => Step::Stop(Standing::InLine),
    }
}

// The same, of a line that isn't remembered. It is from now on, if the text's front tells it.
fn new_step(seen: &mut SeenLines, lines: u32, made: u32, text: &[u8], front: &Front) -> Step
    requires lines { lines ≤ 1048576 }
    requires long { 16 ≤ length text.now }
    requires front { IsFrontOf text.now front.now }
    ensures step { StepGives seen.old lines made text.now result }
    ensures same { seen.new ≡ seen.old }
{
    let Some((turn, rest)) = spelled_line(text) else {
        return any_step(seen.parts(), lines, made, text);
    };
    let used = text.len() - rest.len();
    // A value that was handed on isn't handed on again.
    let (judged, kept) = (turn, turn);
    let step = step_of_turn(seen.parts(), lines, made, turn, used);
    if front.tells(used) && has_named(seen.parts(), judged) {
        seen.remember(front, kept);
    }
    step
}

/// The line that a text begins with, where it is remembered, and how many bytes it has with its line feed. It is that of a turn, if one
/// turn more may come. The bytes are counted in the text, so that the place of the next line hangs on nothing that is remembered.
#[inline(always)]
pub(crate) fn remembered<'a>(places: &'a [Seen], text: &[u8]) -> Option<(&'a Seen, usize)>
    requires { length places.now ≡ 16384 }
    ensures some { IfSome result (λ r. 5 ≤ r.1) }
    ensures within { IfSome result (λ r. r.1 ≤ length text.now) }
    ensures turn { (shape : ShapeView) → All (IsSeenAt shape) places.now →
        IfSome result (λ r. (lines made : ℕ) → made < 1048576 →
        BeginsWithTurn shape lines made text.now r.0.now.turn r.1) }
{
    if text.len() < SPELLED_BYTES {
        return None;
    }
    let front = Front::of(text);
    let line = line_at(places, &front)?;
    Some((line, front.used()))
}

/// What a text begins with where `made` turns are there, and where there were `first` of them so many were lines before it. Its first
/// line is read, as one that isn't remembered.
#[inline(never)]
pub(crate) fn first_step(
    seen: &mut SeenLines,
    first_lines: u32,
    first: u32,
    made: u32,
    text: &[u8],
) -> Step
    requires lines { first_lines ≤ first }
    requires more { first ≤ made }
    requires few { made ≤ 1048576 }
    ensures step { StepGives seen.old (first_lines + (made - first)) made text.now result }
    ensures same { seen.new ≡ seen.old }
{
    let lines = first_lines + (made - first);
    if text.len() < SPELLED_BYTES {
        return any_step(seen.parts(), lines, made, text);
    }
    new_step(seen, lines, made, text, &Front::of(text))
}
