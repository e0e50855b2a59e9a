//! A trace given piece by piece.

ghost use Rattle.std.specs.Prelude.{◌≡◌, ◌≤◌, ◌↔◌, [], ◌++◌, length, take, IfOk};
ghost use Rattle.text_model.specs.Trace.{trace_text};

use crate::line::Line;
use crate::of_ddm_types::{NoMemory, Turn, TurnAnswer};
use crate::parts::{LEAST_PIECE, Parts, joined, put_piece};
use crate::trace::push_trace_line;
use std::alloc::Global;
use std::marker::Model;

/// The trace of turns with their answers, given piece by piece. A contract sees the text that is left.
#[derive(Drop)]
pub struct TracePieces<'a> {
    turns: &'a [Turn],
    answers: &'a [TurnAnswer],
    // How many lines were given.
    given: usize,
}

impl<'a> Model for TracePieces<'a> {
    ghost use Rattle.std.specs.Prelude.{ℕ, List};

    ghost Value = { List ℕ };

    ghost use Rattle.report.specs.TraceLeft.{trace_left, IsTrace};

    ghost view = { trace_left };

    ghost invariant = { IsTrace };
}

impl<'a> TracePieces<'a> {
    /// The trace of these turns, of which nothing is given yet. It takes no memory.
    #[tactic(auto, unfolding(text_model::specs::Trace::trace_text))]
    pub fn new(turns: &'a [Turn], answers: &'a [TurnAnswer]) -> TracePieces<'a>
        requires { length turns.now ≡ length answers.now }
        ensures { result ≡ trace_text turns.now answers.now }
    {
        TracePieces {
            turns,
            answers,
            given: 0,
        }
    }

    /// Puts the next bytes of the trace at the front of `into`, and says how many they are: none only where all
    /// was given. It takes no memory.
    pub fn next_piece(&mut self, into: &mut [u8]) -> usize
        requires { LEAST_PIECE ≤ length into.old }
        ensures within { result ≤ length into.new }
        ensures piece { self.old ≡ take result into.new ++ self.new }
        ensures end { (result ≡ 0) ↔ (self.old ≡ []) }
    {
        put_piece(self, into)
    }
}

impl<'a> Parts for TracePieces<'a> {
    ghost left = { λ text. text };

    fn put_next(&mut self, line: &mut Line) {
        if self.given == self.turns.len() {
            return;
        }
        let turn = self.turns[self.given];
        let answer = self.answers[self.given];
        let Ok(()) = push_trace_line(line, self.given as u64, turn, answer) else {
            unreachable!();
        };
        self.given += 1;
    }
}

/// The trace of turns with their answers.
pub fn trace_text(
    alloc: Global,
    turns: &[Turn],
    answers: &[TurnAnswer],
) -> Result<Vec<u8>, NoMemory>
    requires { length turns.now ≡ length answers.now }
    ensures { IfOk result (λ text. text.items ≡ trace_text turns.now answers.now) }
{
    joined(alloc, &mut TracePieces::new(turns, answers))
}
