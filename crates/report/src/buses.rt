//! The line of a bus.

ghost use Rattle.std.specs.Prelude.{OnOk};
ghost use Rattle.report.specs.DdmText.Adds.{Adds};
ghost use Rattle.text_model.specs.Report.{bus_line};
ghost use Rattle.report.specs.Room.{UsesRoom};

use crate::buffers::TextBuffer;
use crate::numbers::push_bus;
use crate::of_ddm_types::{BusNo, NoMemory};
use crate::of_tree_model::Traffic;
use crate::pieces::{push_bytes, push_number};

/// Puts at the end the line of the transactions that a bus has granted.
pub fn push_bus_line<W: TextBuffer>(
    out: &mut W,
    bus: BusNo,
    traffic: &Traffic,
) -> Result<(), NoMemory>
    ensures text { OnOk result (Adds (W.text out.old) (W.text out.new) (bus_line bus traffic.now)) }
    ensures room { UsesRoom 188 (W.room out.old) (W.room out.new) result }
{
    push_bytes(out, b"bus ")?;
    push_bus(out, bus)?;
    push_bytes(out, b" read ")?;
    push_number(out, traffic.reads)?;
    push_bytes(out, b" data ")?;
    push_number(out, traffic.copies)?;
    push_bytes(out, b" erase ")?;
    push_number(out, traffic.erases)?;
    push_bytes(out, b" exclusive ")?;
    push_number(out, traffic.exclusives)?;
    push_bytes(out, b" out ")?;
    push_number(out, traffic.outs)?;
    push_bytes(out, b" inject ")?;
    push_number(out, traffic.injects)?;
    push_bytes(out, b"\n")?;
    Ok(())
}
