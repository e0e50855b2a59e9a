//! Lines of a schedule that were seen before.

ghost use Rattle.std.specs.Prelude.{◌≡◌, ◌<◌, [], All, IfOk, IfSome, length};
ghost use Rattle.text_model.specs.Schedule.{ShapeView};
ghost use Rattle.schedule_log.specs.Seen.{IsSeen, IsSeenAt};
ghost use Rattle.schedule_log.specs.Shapes.{shape_view};

use crate::front::Front;
use crate::of_ddm_types::{BusNo, NoMemory, Turn};
use crate::parts::Parts;
use std::alloc::Global;
use std::marker::Model;
use tree_config::Shape;

/// So many lines are remembered.
const PLACES: usize = 16_384;

/// What each text begins with that has this front: the line of a turn.
#[derive(Clone, Copy)]
pub(crate) struct Seen {
    front: Front,
    turn: Turn,
}

impl Seen {
    // What stands where no line is remembered: its front is that of no text.
    #[inline(always)]
    fn nothing() -> Seen
        ensures { (shape : ShapeView) → IsSeenAt shape result }
    {
        Seen {
            front: Front::of_none(),
            turn: Turn::Down { bus: BusNo(0) },
        }
    }

    #[inline(always)]
    pub(crate) fn turn(&self) -> Turn
        ensures { result ≡ self.now.turn }
    {
        self.turn
    }
}

/// Lines of turns that are remembered, all of one tree. A contract sees what that tree has.
#[derive(Drop)]
pub(crate) struct SeenLines {
    parts: Parts,
    places: Vec<Seen>,
}

impl Model for SeenLines {
    ghost use Rattle.std.specs.Prelude.{◌≡◌, All, length};
    ghost use Rattle.text_model.specs.Schedule.{ShapeView};
    ghost use Rattle.schedule_log.specs.Seen.{IsSeenAt};

    ghost Value = { ShapeView };

    ghost view = { λ s. s.parts };

    ghost invariant = { λ s. (length s.places.items ≡ 16384) × All (IsSeenAt s.parts) s.places.items };
}

// No line is remembered.
fn forget(places: &mut [Seen])
    ensures { (shape : ShapeView) → All (IsSeenAt shape) places.new }
{
    for place in 0..places.len() {
        places[place] = Seen::nothing();
    }
}

// Where the line is remembered that has this front.
#[inline(always)]
fn place_of(front: &Front) -> usize
    ensures { result < PLACES }
{
    (front.mixed() >> 50) as usize
}

/// The line with which each text begins that has this front, where it is remembered at one of these places.
#[inline(always)]
pub(crate) fn line_at<'a>(places: &'a [Seen], front: &Front) -> Option<&'a Seen>
    requires { length places.now ≡ PLACES }
    ensures front { IfSome result (λ line. line.now.front ≡ front.now) }
    ensures seen { (shape : ShapeView) → All (IsSeenAt shape) places.now → IfSome result (λ line. IsSeenAt shape line.now) }
{
    let line = &places[place_of(front)];
    if line.front.is_same(front) {
        Some(line)
    } else {
        None
    }
}

impl SeenLines {
    /// No line, of a tree without parts.
    pub(crate) fn new(alloc: Global) -> Result<SeenLines, NoMemory>
        ensures { IfOk result (λ seen. seen ≡ record { harts = 0; buses = [] }) }
    {
        let mut places = vec![in alloc; Seen::nothing(); PLACES]?;
        forget(&mut places);
        Ok(SeenLines {
            parts: Parts::none(),
            places,
        })
    }

    /// Of this tree from now on. What is remembered of another one is forgotten.
    pub(crate) fn turn_to(&mut self, shape: &Shape)
        ensures { self.new ≡ shape_view shape.now }
    {
        let parts = Parts::new(shape);
        if self.parts.is_same(&parts) {
            return;
        }
        forget(&mut self.places);
        self.parts = parts;
    }

    /// What turns are judged by.
    #[inline(always)]
    pub(crate) fn parts(&self) -> &Parts
        ensures { result.now ≡ self.now }
    {
        &self.parts
    }

    /// What is remembered, by its places.
    pub(crate) fn places(&self) -> &[Seen]
        ensures many { length result.now ≡ PLACES }
        ensures seen { All (IsSeenAt self.now) result.now }
    {
        &self.places
    }

    /// Remembers a line in place of another one.
    pub(crate) fn remember(&mut self, front: &Front, turn: Turn)
        requires { IsSeen self.old front.now turn }
        ensures { self.new ≡ self.old }
    {
        self.places[place_of(front)] = Seen {
            front: *front,
            turn,
        };
    }
}
