//! Tests of reports, whole and in pieces.

ghost use Rattle.std.specs.Prelude.{◌≡◌, IfOk};

use crate::of_ddm_types::{NoMemory, Op};
use crate::one_bus::{HART, OneBus, STORE_AND_LOAD, answers, as_any, one_bus};
use operation_list::Operations;
use report::{LEAST_PIECE, ReportPieces, joined, report_text};
use run_engine::{AnyMachine, RunCounts, release};
use std::alloc::Global;
use std::test::Fail;
use witness_order::ascend;

/// The report of one hart that stores, loads back and exits, after eight turns.
const STORED_AND_LOADED: &str = "ddm 1\n\
    turns 8 retired 6 granted 0 busy 0\n\
    hart 0 exit 7 pc 00010018 done 6\n\
    regs 0 00000000 00030010 00000000 00000000 00020000 00000007 00000007 00000000 00000000 00000007 \
    00000001 00000000 00000000 00000000 00000000 00000000 0000005d 00000000 00000000 00000000 00000000 \
    00000000 00000000 00000000 00000000 00000000 00000000 00000000 00000000 00000000 00000000\n\
    out 0 -\n\
    bus 0 read 0 data 0 erase 0 exclusive 0 out 0 inject 0\n\
    item 0 00010000 000202b7 00700313 0062a023 0002a383 leaf 0 way 0 E\n\
    item 1 00010010 05d00893 00038513 00000073 00000000 leaf 0 way 1 E\n\
    item 2 00020000 00000007 00000000 00000000 00000000 leaf 0 way 2 E\n\
    item 3 00030000 00000000 00000000 00000000 00000000 leaf 0 way 3 E\n\
    op 0 0.0.0 00010000 plain\n\
    op 0 0.0.1 00010004 plain\n\
    op 0 0.0.2 00010008 store 00020000 00000000 00000007\n\
    op 0 0.0.3 0001000c load 00020000 00000007\n\
    op 0 0.0.4 00010010 plain\n\
    op 0 0.0.5 00010014 plain\n\
    end\n";

const COUNTS: RunCounts = RunCounts {
    turns: 8,
    retired: 6,
    granted: 0,
    busy: 0,
};

/// The machine of one leaf after these turns.
fn stored_and_loaded(alloc: Global) -> Result<OneBus, Fail> {
    let mut machine = one_bus(alloc, "(L)", 16, &STORE_AND_LOAD)?;
    answers(alloc, &mut machine, &[HART; 8])?;
    Ok(machine)
}

#[test]
fn whole_report(rt: HostRuntime) -> Result<(), Fail> {
    let machine = as_any(stored_and_loaded(rt.alloc())?);
    let text = report_text(rt.alloc(), &machine, COUNTS);
    release(machine);
    assert_eq!(rt; text?.as_slice(), STORED_AND_LOADED.as_bytes());
    Ok(())
}

/// These operations as a list of their own.
fn listed(alloc: Global, ops: &Operations) -> Result<Vec<Op>, NoMemory>
    ensures { IfOk result (λ list. list.items ≡ ops.now.items) }
{
    let mut list = Vec::new(alloc);
    for place in 0..ops.len() {
        list.push(ops.get(place))?;
    }
    Ok(list)
}

/// The report of a machine whose operations came in the order of their keys: its first piece, and then the others.
fn in_pieces(alloc: Global, machine: &AnyMachine) -> Result<Vec<u8>, Fail> {
    let witness = listed(alloc, machine.ops())?;
    if !ascend(machine.ops()) {
        return Err(Fail::from("operations in another order"));
    }
    let mut pieces = ReportPieces::new(machine, &witness, COUNTS);
    let mut into = [0; LEAST_PIECE];
    let first = pieces.next_piece(&mut into);
    let mut text = Vec::new(alloc);
    text.extend_from_slice(&into[..first])?;
    text.extend_from_slice(&joined(alloc, &mut pieces)?)?;
    Ok(text)
}

#[test]
fn report_in_pieces(rt: HostRuntime) -> Result<(), Fail> {
    let machine = as_any(stored_and_loaded(rt.alloc())?);
    let text = in_pieces(rt.alloc(), &machine);
    release(machine);
    assert_eq!(rt; text?.as_slice(), STORED_AND_LOADED.as_bytes());
    Ok(())
}
