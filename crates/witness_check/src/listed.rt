//! The operations that the lines of a text say are kept.

ghost use Rattle.std.specs.Prelude.{◌≡◌, ◌++◌, IfOk, OnOk};
ghost use Rattle.witness_check.specs.Lines.{op_in};
ghost use Rattle.witness_check.specs.Listed.{ops_in, said};

use crate::lines::op_of_line;
use crate::of_ddm_types::{NoMemory, Op};
use crate::places::place_of;
use std::alloc::Global;

// Puts the operation that a line says behind the others, if it says one.
fn push_said(line: &[u8], ops: &mut Vec<Op>) -> Result<(), NoMemory>
    ensures { OnOk result (ops.new.items ≡ ops.old.items ++ said (op_in line.now)) }
{
    if let Some(op) = op_of_line(line) {
        ops.push(op)?;
    }
    Ok(())
}

/// The operations that the lines of a text say, in their order; what is no such line is left out. Their keys are left aside.
pub fn ops_of(alloc: Global, text: &[u8]) -> Result<Vec<Op>, NoMemory>
    ensures { IfOk result (λ ops. ops.items ≡ ops_in text.now) }
{
    let mut ops = Vec::new(alloc);
    let mut from = 0;
    'lines: loop {
        let rest = &text[from..];
        let Some(end) = place_of(b'\n', rest) else {
            push_said(rest, &mut ops)?;
            return Ok(ops);
        };
        push_said(&rest[..end], &mut ops)?;
        from += end + 1;
    }
}
