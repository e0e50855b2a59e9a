//! A checkpoint given piece by piece.

ghost use Rattle.std.specs.Prelude.{◌≡◌, ◌+◌, ◌-◌, ◌*◌, ◌≤◌, [], ◌++◌, drop, length, take, IfOk};
ghost use Rattle.std.specs.List.{flat_map};
ghost use Rattle.std.specs.Int.{w32, to_le_bytes};
ghost use Rattle.checkpoint.specs.StateWords.Parts.{op_words};
ghost use Rattle.checkpoint.specs.AnyMachine.Any.{machine_state};
ghost use Rattle.checkpoint.specs.Saved.{saved};

use crate::front::front_of;
use crate::of_any_machine::AnyMachine;
use crate::of_ddm_types::{NoMemory, Op};
use crate::of_operation_list::Operations;
use crate::of_state_words::{effect_words, key_words};
use crate::of_text_model::RunCounts;
use report::{LINE_BYTES, Line, Parts};
use std::alloc::Global;
use std::marker::Model;

/// The word behind all others.
const END: u32 = 0x454d_4444;

/// The most words of which a line has the bytes.
const LINE_WORDS: usize = LINE_BYTES / 4;

/// The most operations of which a line has the bytes: each has 15 words.
const LINE_OPERATIONS: usize = LINE_WORDS / 15;

/// The checkpoint of a machine, given piece by piece. A contract sees the bytes that are left.
#[derive(Drop)]
pub struct CheckpointPieces<'a> {
    // The words before those of the operations.
    front: Vec<u32>,
    ops: &'a Operations,
    // How many of these words and how many operations were given, and whether the end word was.
    words_given: usize,
    ops_given: usize,
    is_ended: bool,
}

impl<'a> Model for CheckpointPieces<'a> {
    ghost use Rattle.std.specs.Prelude.{ℕ, List};

    ghost Value = { List ℕ };

    ghost use Rattle.checkpoint.specs.PiecesLeft.{checkpoint_left};

    ghost view = { checkpoint_left };
}

/// Puts the bytes of words at the end, of each the least first.
fn put_words(line: &mut Line, words: &[u32])
    requires { length line.old + 4 * length words.now ≤ LINE_BYTES }
    ensures bytes { line.new ≡ line.old ++ flat_map (to_le_bytes w32) words.now }
    ensures long { length line.new ≡ length line.old + 4 * length words.now }
{
    for word in words {
        line.push(&word.to_le_bytes());
    }
}

/// Puts the bytes of an operation at the end.
#[inline(always)]
fn put_operation(line: &mut Line, op: Op)
    requires { length line.old + 60 ≤ LINE_BYTES }
    ensures bytes { line.new ≡ line.old ++ flat_map (to_le_bytes w32) (op_words op) }
    ensures long { length line.new ≡ length line.old + 60 }
{
    put_words(line, &key_words(op.key));
    put_words(line, &[op.hart.0, op.pc]);
    put_words(line, &effect_words(op.effect));
}

/// Puts the bytes of the operations from one place to another into the empty line.
fn put_operations(line: &mut Line, ops: &Operations, from: usize, end: usize)
    requires empty { line.old ≡ [] }
    requires from { from ≤ end }
    requires end { end ≤ length ops.now.items }
    requires few { end - from ≤ LINE_OPERATIONS }
    ensures bytes { line.new ≡ flat_map (to_le_bytes w32) (flat_map op_words (take (end - from) (drop from ops.now.items))) }
    ensures long { length line.new ≡ 60 * (end - from) }
{
    for place in from..end {
        put_operation(line, ops.get(place));
    }
}

impl<'a> CheckpointPieces<'a> {
    /// The checkpoint of a machine whose turns so far came to these counts, of which nothing is given yet. All memory that it needs is
    /// taken here: for the words before those of the operations.
    pub fn new(
        alloc: Global,
        machine: &'a AnyMachine,
        counts: RunCounts,
    ) -> Result<CheckpointPieces<'a>, NoMemory>
        requires { counts.retired ≡ length (machine_state machine.now).machine.ops }
        ensures { IfOk result (λ bytes. bytes ≡ saved (machine_state machine.now).machine counts) }
    {
        let front = front_of(alloc, machine, counts)?;
        Ok(CheckpointPieces {
            front,
            ops: machine.ops(),
            words_given: 0,
            ops_given: 0,
            is_ended: false,
        })
    }
}

impl<'a> Parts for CheckpointPieces<'a> {
    ghost left = { λ bytes. bytes };

    fn put_next(&mut self, line: &mut Line) {
        if self.words_given < self.front.len() {
            let end = self.front.len().min(self.words_given + LINE_WORDS);
            put_words(line, &self.front[self.words_given..end]);
            self.words_given = end;
        } else if self.ops_given < self.ops.len() {
            let left = self.ops.len() - self.ops_given;
            let end = self.ops_given + left.min(LINE_OPERATIONS);
            put_operations(line, self.ops, self.ops_given, end);
            self.ops_given = end;
        } else if !self.is_ended {
            put_words(line, &[END]);
            self.is_ended = true;
        }
    }
}
