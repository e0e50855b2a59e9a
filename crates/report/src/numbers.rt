//! Numbers of harts, buses, leaves, children and items, as text.

ghost use Rattle.std.specs.Prelude.{◌+◌, ◌++◌, OnOk, decimal, length};
ghost use Rattle.report.specs.DdmText.Adds.{Adds};
ghost use Rattle.report.specs.Room.{UsesRoom};

use crate::buffers::TextBuffer;
use crate::of_ddm_types::{BusNo, ChildNo, HartNo, ItemId, LeafNo, NoMemory};
use crate::pieces::{push_named, push_number};

/// Puts the number of a hart at the end.
#[inline(always)]
pub fn push_hart<W: TextBuffer>(out: &mut W, hart: HartNo) -> Result<(), NoMemory>
    ensures text { OnOk result (Adds (W.text out.old) (W.text out.new) (decimal hart)) }
    ensures room { UsesRoom 20 (W.room out.old) (W.room out.new) result }
{
    push_number(out, hart.0)
}

/// Puts the number of a bus at the end.
pub fn push_bus<W: TextBuffer>(out: &mut W, bus: BusNo) -> Result<(), NoMemory>
    ensures text { OnOk result (Adds (W.text out.old) (W.text out.new) (decimal bus)) }
    ensures room { UsesRoom 20 (W.room out.old) (W.room out.new) result }
{
    push_number(out, bus.0)
}

/// Puts the number of a leaf with a name before it at the end.
pub fn push_named_leaf<W: TextBuffer>(
    out: &mut W,
    name: &[u8],
    leaf: LeafNo,
) -> Result<(), NoMemory>
    ensures text { OnOk result (Adds (W.text out.old) (W.text out.new) (name.now ++ decimal leaf)) }
    ensures room { UsesRoom (length name.now + 20) (W.room out.old) (W.room out.new) result }
{
    push_named(out, name, leaf.0)
}

/// Puts the number of a child at the end.
pub fn push_child<W: TextBuffer>(out: &mut W, child: ChildNo) -> Result<(), NoMemory>
    ensures text { OnOk result (Adds (W.text out.old) (W.text out.new) (decimal child)) }
    ensures room { UsesRoom 20 (W.room out.old) (W.room out.new) result }
{
    push_number(out, child.0)
}

/// Puts the number of an item at the end.
pub fn push_item<W: TextBuffer>(out: &mut W, item: ItemId) -> Result<(), NoMemory>
    ensures text { OnOk result (Adds (W.text out.old) (W.text out.new) (decimal item)) }
    ensures room { UsesRoom 20 (W.room out.old) (W.room out.new) result }
{
    push_number(out, item.0)
}
