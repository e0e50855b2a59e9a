//! The lines of what was measured.

ghost use Rattle.std.specs.Prelude.{◌≡◌, ◌+◌, ◌++◌, OnOk, codes, nat_eq};
ghost use Rattle.report.specs.DdmText.Adds.{Adds};
ghost use Rattle.recording_model.specs.TreeModel.State.Values.{LeafValue};
ghost use Rattle.ddm_types.specs.ItemTable.{ItemRow};
ghost use Rattle.measure_model.specs.SurveyModel.Survey.{end_word};
ghost use Rattle.measure_model.specs.Text.{bus_counts_line, hart_counts_line, item_counts_line, leaf_most_line, most_line, totals_line};
ghost use Rattle.measuring.specs.Lines.{HasHart, told_item};

use ddm_types::NoMemory;
use measure_model::{HartCounts, ItemCounts, RunTotals};
use recording::RunEnd;
use report::of_rv_hart::Hart;
use report::{push_bytes, push_named, push_named_word, push_state};
use tree_model::{DirLengths, LeafLengths, Traffic};

/// How the run ended.
pub(crate) fn push_end(out: &mut Vec<u8>, end: RunEnd) -> Result<(), NoMemory>
    ensures { OnOk result (Adds out.old.items out.new.items (codes "end " ++ end_word end ++ codes "\n")) }
{
    match end {
        RunEnd::Halted => push_bytes(out, b"end halted\n"),
        RunEnd::Turns => push_bytes(out, b"end turns\n"),
        RunEnd::Stuck => push_bytes(out, b"end stuck\n"),
        RunEnd::Drawn => push_bytes(out, b"end drawn\n"),
    }
}

/// What all turns came to.
pub(crate) fn push_totals(out: &mut Vec<u8>, totals: &RunTotals) -> Result<(), NoMemory>
    ensures { OnOk result (Adds out.old.items out.new.items (totals_line totals.now)) }
{
    push_named(out, b"turns ", totals.turns)?;
    push_named(out, b" drawn ", totals.drawn)?;
    push_named(out, b" retired ", totals.retired)?;
    push_named(out, b" issued ", totals.issued)?;
    push_named(out, b" granted ", totals.granted)?;
    push_named(out, b" halted ", totals.halted)?;
    push_named(out, b" busy ", totals.busy)?;
    push_bytes(out, b"\n")?;
    Ok(())
}

/// The state of a hart, and what its turns came to.
pub(crate) fn push_hart(
    out: &mut Vec<u8>,
    number: u32,
    hart: &Hart,
    counts: &HartCounts,
) -> Result<(), NoMemory>
    ensures { OnOk result ((v : LeafValue) → HasHart number hart.now v → Adds out.old.items out.new.items (hart_counts_line v counts.now)) }
{
    push_named(out, b"hart ", number)?;
    push_bytes(out, b" ")?;
    push_state(out, hart.halted())?;
    push_named_word(out, b" pc ", hart.pc())?;
    push_named(out, b" done ", hart.done())?;
    push_named(out, b" loads ", counts.loads)?;
    push_named(out, b" stores ", counts.stores)?;
    push_named(out, b" amos ", counts.amos)?;
    push_named(out, b" failed ", counts.failed)?;
    push_named(out, b" reads ", counts.reads)?;
    push_named(out, b" erases ", counts.erases)?;
    push_named(out, b" busy ", counts.busy)?;
    push_bytes(out, b"\n")?;
    Ok(())
}

/// What a bus has granted, and how many of its turns were busy.
pub(crate) fn push_bus(
    out: &mut Vec<u8>,
    bus: u32,
    traffic: &Traffic,
    busy: u32,
) -> Result<(), NoMemory>
    ensures { OnOk result (Adds out.old.items out.new.items (bus_counts_line bus traffic.now busy)) }
{
    push_named(out, b"bus ", bus)?;
    push_named(out, b" read ", traffic.reads)?;
    push_named(out, b" data ", traffic.copies)?;
    push_named(out, b" erase ", traffic.erases)?;
    push_named(out, b" exclusive ", traffic.exclusives)?;
    push_named(out, b" out ", traffic.outs)?;
    push_named(out, b" inject ", traffic.injects)?;
    push_named(out, b" busy ", busy)?;
    push_bytes(out, b"\n")?;
    Ok(())
}

/// The greatest lengths of the lists over a bus.
pub(crate) fn push_most(out: &mut Vec<u8>, bus: u32, most: &DirLengths) -> Result<(), NoMemory>
    ensures { OnOk result (Adds out.old.items out.new.items (most_line bus most.now)) }
{
    push_named(out, b"most bus ", bus)?;
    push_named(out, b" down ", most.down)?;
    push_named(out, b" requests ", most.requests)?;
    push_named(out, b" replies ", most.replies)?;
    push_named(out, b" parking ", most.parking)?;
    push_bytes(out, b"\n")?;
    Ok(())
}

/// And of those of a leaf.
pub(crate) fn push_leaf_most(
    out: &mut Vec<u8>,
    leaf: u32,
    most: &LeafLengths,
) -> Result<(), NoMemory>
    ensures { OnOk result (Adds out.old.items out.new.items (leaf_most_line leaf most.now)) }
{
    push_named(out, b"most leaf ", leaf)?;
    push_named(out, b" replies ", most.replies)?;
    push_named(out, b" buffer ", most.buffer)?;
    push_bytes(out, b"\n")?;
    Ok(())
}

// Whether there is nothing to be told of an item.
fn is_nothing(counts: &ItemCounts) -> bool
    ensures { result ≡ nat_eq (counts.now.reads + counts.now.erases + counts.now.injects) 0 }
{
    counts.reads == 0 && counts.erases == 0 && counts.injects == 0
}

// What is told of an item of which there is anything to be told.
fn push_told_item(
    out: &mut Vec<u8>,
    item: u32,
    address: u32,
    counts: &ItemCounts,
) -> Result<(), NoMemory>
    ensures { OnOk result (Adds out.old.items out.new.items (told_item item address counts.now)) }
{
    push_named(out, b"item ", item)?;
    push_named_word(out, b" ", address)?;
    push_named(out, b" reads ", counts.reads)?;
    push_named(out, b" erases ", counts.erases)?;
    push_named(out, b" injects ", counts.injects)?;
    push_bytes(out, b"\n")?;
    Ok(())
}

/// How often an item was asked for, and injects of it were granted: nothing, where that never was so.
pub(crate) fn push_item(
    out: &mut Vec<u8>,
    item: u32,
    address: u32,
    counts: &ItemCounts,
) -> Result<(), NoMemory>
    ensures { OnOk result
        ((row : ItemRow) → row.address ≡ address →
        Adds out.old.items out.new.items (item_counts_line item row counts.now)) }
{
    if is_nothing(counts) {
        return Ok(());
    }
    push_told_item(out, item, address, counts)?;
    Ok(())
}
