//! A cell of the program: labels, and then an instruction or nothing.

ghost use Rattle.std.specs.Prelude.{◌≡◌, ◌≤◌, ◌+◌, ◌∷◌, [], ◌++◌, ℕ, List, IfOk, IfSome, None, OnOk, length, map};
ghost use Rattle.litmus_model.specs.declared.parts.Step.{Step as StepValue};
ghost use Rattle.litmus_model.specs.Tokens.{Piece as PieceValue, parts_of};
ghost use Rattle.litmus_model.specs.Program.{instruction_steps, label_name, operands_of, placed, steps_behind_labels};
ghost use Rattle.litmus_text.specs.Reads.{Adds, Reads, behind};
ghost use Rattle.litmus_steps.specs.Made.{IsMade};
ghost use Rattle.litmus_read.specs.Cells.{cell_placed, first_label, placed_steps};
ghost use Rattle.litmus_read.specs.Kept.{IsKept};

use elf_load::of_ddm_types::NoMemory;
use litmus_model::{Fault, Name, Part, PlacedStep, Step, Token};
use litmus_steps::{Made, Operand, form_of, form_steps};
use litmus_text::{Piece, Unread, begins_with_digit, in_line, parts_of, pieces_at};
use std::alloc::Global;

/// The thread of a cell, and its line.
#[derive(Clone, Copy)]
pub(crate) struct Cell {
    pub(crate) thread: u32,
    pub(crate) line: u32,
}

fn push_operand(alloc: Global, operands: &mut Vec<Operand>, piece: &Piece) -> Result<(), NoMemory>
    ensures { OnOk result (operands.new.items ≡ operands.old.items ++ parts_of piece.now.tokens ∷ []) }
{
    let parts = parts_of(alloc, &piece.tokens)?;
    operands.push(Operand { parts })?;
    Ok(())
}

#[tactic(auto, using(crate::proofs::CellSteps::operands_next, crate::proofs::CellSteps::operands_done))]
fn operands_in(alloc: Global, pieces: &[Piece]) -> Result<Vec<Operand>, NoMemory>
    ensures { IfOk result (λ operands. operands.items ≡ map (λ (p : PieceValue). parts_of p.tokens) pieces.now) }
{
    let mut operands = Vec::new(alloc);
    for piece in pieces {
        push_operand(alloc, &mut operands, piece)?;
    }
    Ok(operands)
}

/// The operands that commas separate; no tokens are no operand.
#[tactic(auto, using(crate::proofs::CellSteps::no_operands, crate::proofs::CellSteps::some_operands))]
fn operands_of(alloc: Global, line: u32, tokens: &[Token]) -> Result<Vec<Operand>, NoMemory>
    ensures { IfOk result (λ operands. operands.items ≡ operands_of line tokens.now) }
{
    if tokens.is_empty() {
        return Ok(Vec::new(alloc));
    }
    let pieces = pieces_at(alloc, b',', line, tokens)?;
    operands_in(alloc, &pieces)
}

#[tactic(auto, unfolding(litmus_model::specs::Program::instruction_steps, litmus_model::specs::Refusing::and_then))]
fn instruction_steps(
    alloc: Global,
    line: u32,
    mnemonic: &Name,
    operands: &[Token],
) -> Result<Made, Unread>
    ensures steps { Reads (λ (steps : List StepValue). steps) (instruction_steps line mnemonic.now operands.now) result }
    ensures made { IfOk result IsMade }
{
    let form = form_of(line, mnemonic.bytes())?;
    let operands = operands_of(alloc, line, operands)?;
    match form_steps(line, form, &operands)? {
        Some(made) => Ok(made),
        None => Err(Unread::Refused(in_line(line, Fault::BadOperands))),
    }
}

fn push_step(steps: &mut Vec<PlacedStep>, cell: Cell, step: Step) -> Result<(), NoMemory>
    ensures { OnOk result (steps.new.items ≡ steps.old.items ++ placed cell.thread cell.line (step ∷ [])) }
{
    steps.extend_from_slice(&[PlacedStep {
        thread: cell.thread,
        line: cell.line,
        step,
    }])?;
    Ok(())
}

#[tactic(auto, using(crate::proofs::CellSteps::two_placed))]
fn push_made(steps: &mut Vec<PlacedStep>, cell: Cell, made: &Made) -> Result<(), NoMemory>
    ensures { OnOk result (steps.new.items ≡ steps.old.items ++ placed cell.thread cell.line made.now) }
{
    push_step(steps, cell, made.first)?;
    if let Some(second) = made.second {
        push_step(steps, cell, second)?;
    }
    Ok(())
}

fn label_name(first: &Part, second: &Part) -> Option<Name>
    ensures { result ≡ label_name first.now second.now }
{
    match (first, second) {
        (Part::Word(word), Part::Mark(b':')) if !begins_with_digit(word.bytes()) => Some(*word),
        _ => None,
    }
}

/// The label with which tokens begin.
#[tactic(auto, using(crate::proofs::CellSteps::short_labelled, crate::proofs::CellSteps::long_labelled))]
fn first_label(tokens: &[Token]) -> Option<Name>
    ensures label { result ≡ first_label tokens.now }
    ensures long { IfSome result (λ name. 2 ≤ length tokens.now) }
{
    if tokens.len() < 2 {
        None
    } else {
        label_name(&tokens[0].part, &tokens[1].part)
    }
}

/// Adds the labels of a cell, and says what follows them.
#[tactic(auto, using(crate::proofs::CellSteps::label_next, crate::proofs::KeptSteps::kept_label))]
fn push_labels<'a>(
    steps: &mut Vec<PlacedStep>,
    cell: Cell,
    tokens: &'a [Token],
) -> Result<&'a [Token], NoMemory>
    ensures labels { IfOk result (λ left. first_label left.now ≡ None) }
    ensures kept { IfOk result (λ left. (before thread : ℕ) → IsKept before thread steps.old.items → IsKept before thread steps.new.items) }
    ensures steps { IfOk result
        (λ left. behind steps.old.items (cell_placed cell.thread cell.line tokens.now)
        ≡ behind steps.new.items (cell_placed cell.thread cell.line left.now)) }
{
    let mut left = tokens;
    'labels: while let Some(label) = first_label(left) {
        push_step(steps, cell, Step::Label(label))?;
        left = &left[2..];
    }
    Ok(left)
}

/// Adds the instruction that begins with this part.
#[tactic(auto, using(crate::proofs::CellSteps::made_added, crate::proofs::CellSteps::mark_refused, crate::proofs::KeptSteps::kept_made))]
fn push_instruction(
    alloc: Global,
    steps: &mut Vec<PlacedStep>,
    cell: Cell,
    first: &Part,
    operands: &[Token],
) -> Result<(), Unread>
    ensures steps { Adds
        (placed_steps cell.thread cell.line (steps_behind_labels cell.line first.now operands.now))
        steps.old.items steps.new.items result }
    ensures kept { OnOk result
        ((before : ℕ) → IsKept before cell.thread steps.old.items →
        IsKept before (cell.thread + 1) steps.new.items) }
{
    match first {
        Part::Word(mnemonic) => {
            let made = instruction_steps(alloc, cell.line, mnemonic, operands)?;
            push_made(steps, cell, &made)?;
            Ok(())
        }
        Part::Mark(_) => Err(Unread::Refused(in_line(cell.line, Fault::BadOperands))),
    }
}

/// Adds the steps of a cell.
pub(crate) fn read_cell(
    alloc: Global,
    steps: &mut Vec<PlacedStep>,
    cell: Cell,
    tokens: &[Token],
) -> Result<(), Unread>
    ensures steps { Adds (cell_placed cell.thread cell.line tokens.now) steps.old.items steps.new.items result }
    ensures kept { OnOk result
        ((before : ℕ) → IsKept before cell.thread steps.old.items →
        IsKept before (cell.thread + 1) steps.new.items) }
{
    let left = push_labels(steps, cell, tokens)?;
    if left.is_empty() {
        return Ok(());
    }
    push_instruction(alloc, steps, cell, &left[0].part, &left[1..])
}
