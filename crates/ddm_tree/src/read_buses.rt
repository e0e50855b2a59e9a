//! The buses and the operations of a state are read.

ghost use Rattle.std.specs.Prelude.{◌≡◌, ◌+◌, ◌<◌, ◌≤◌, ◌^◌, ◌≢◌, [], true, Ok, Err, drop, length, IfErr, IfOk, OnOk};
ghost use Rattle.std.specs.List.{range_with_len};
ghost use Rattle.ddm_tree.specs.DdmTypes.ItemTable.{item_count};
ghost use Rattle.ddm_tree.specs.TreeModel.State.Shape.{depth_of, frame_of, tree_counts};
ghost use Rattle.ddm_tree.specs.TreeModel.Turns.Tree.{bus_of_number};
ghost use Rattle.ddm_tree.specs.StateReading.declared.StateRefusal.TheVariants.{NoMemory};
ghost use Rattle.ddm_tree.specs.StateReading.Machine.{read_buses};
ghost use Rattle.ddm_tree.specs.StateReading.Parts.{read_op};
ghost use Rattle.ddm_tree.specs.StateReading.Reading.{times};
ghost use Rattle.ddm_tree.specs.Machine.{is_part};
ghost use Rattle.ddm_tree.specs.Parts.{BusesAreRead, BusIsRead, BusIsRefused, OpsAreRead};

use crate::of_ddm_types::{BusNo, TreeCounts};
use crate::of_state_reading::StateRefusal;
use crate::parts::Parts;
use crate::read_records::{read_op, read_traffic};
use crate::section::Section;
use crate::subtree::Subtree;
use operation_list::Operations;

/// How many words an operation has.
const OP_WORDS: usize = 15;

/// Reads one operation more, in a tree of so many levels of buses and so many leaves.
fn add_op(
    ops: &mut Operations,
    words: &[u32],
    at: &mut u32,
    depth: u32,
    leaves: u32,
) -> Result<(), StateRefusal>
    requires few { length words.now < 2 ^ 32 }
    requires inside { at.old ≤ length words.now }
    ensures read { OnOk result
        (read_op depth leaves ops.old.items at.old (drop at.old words.now)
        ≡ Ok (record { value = ops.new.items; at = at.new; rest = drop at.new words.now })) }
    ensures refused { IfErr result (λ e. e ≢ NoMemory → read_op depth leaves ops.old.items at.old (drop at.old words.now) ≡ Err e) }
    ensures inside { at.new ≤ length words.now }
    ensures more { OnOk result (length ops.new.items ≡ length ops.old.items + 1) }
{
    let op = read_op(words, at, depth, leaves)?;
    match ops.add(&op) {
        Ok(()) => Ok(()),
        Err(_) => Err(StateRefusal::NoMemory),
    }
}

/// Takes memory for so many operations at once, if there are words enough for them: a count that is false takes none.
fn make_room(ops: &mut Operations, retired: u32, words: usize) -> Result<(), StateRefusal>
    ensures same { ops.new.items ≡ ops.old.items }
    ensures refused { IfErr result (λ e. e ≡ NoMemory) }
{
    let many = retired as usize;
    if words / OP_WORDS < many {
        return Ok(());
    }
    match ops.reserve(many) {
        Ok(()) => Ok(()),
        Err(_) => Err(StateRefusal::NoMemory),
    }
}

/// Reads so many operations in place of those that are there. Where the words are too few, memory is taken one by one.
fn fill_ops(
    ops: &mut Operations,
    retired: u32,
    words: &[u32],
    at: &mut u32,
    counts: TreeCounts,
) -> Result<(), StateRefusal>
    requires few { length words.now < 2 ^ 32 }
    requires inside { at.old ≤ length words.now }
    ensures read { OnOk result
        (times (read_op counts.depth counts.leaves) retired [] at.old (drop at.old words.now)
        ≡ Ok (record { value = ops.new.items; at = at.new; rest = drop at.new words.now })) }
    ensures refused { IfErr result
        (λ e. e ≢ NoMemory →
        times (read_op counts.depth counts.leaves) retired [] at.old (drop at.old words.now) ≡ Err e) }
    ensures inside { at.new ≤ length words.now }
    ensures many { OnOk result (length ops.new.items ≡ retired) }
{
    ops.clear();
    make_room(ops, retired, words.len() - *at as usize)?;
    let mut next = *at;
    for _number in 0..retired {
        add_op(ops, words, &mut next, counts.depth, counts.leaves)?;
    }
    *at = next;
    Ok(())
}

impl<const WORDS: usize, C: Subtree<WORDS> + Drop> Parts<WORDS, C> {
    /// Reads the directory over a bus and what the bus has granted, and gives the number of the next word.
    fn read_bus(self, bus: BusNo, words: &[u32], from: u32) -> Result<(Self, u32), StateRefusal>
        requires few { length words.now < 2 ^ 32 }
        requires inside { from ≤ length words.now }
        requires there { is_part (bus_of_number bus) self ≡ true }
        ensures read { IfOk result (λ r. BusIsRead bus words.now from self r.0 r.1) }
        ensures refused { IfErr result (λ e. BusIsRefused bus words.now from self e) }
        ensures frame { IfOk result (λ r. frame_of r.0 ≡ frame_of self) }
        ensures inside { IfOk result (λ r. r.1 ≤ length words.now) }
    {
        // Its shape, of which the proof speaks.
        let _ = self.counts();
        let (next, behind) = self.read_section(Section::Bus(bus), words, from)?;
        let mut parts = next;
        let mut at = behind;
        let traffic = read_traffic(words, &mut at)?;
        parts.traffic[bus.0 as usize] = traffic;
        Ok((parts, at))
    }

    /// Reads all buses, in order of number: the directory over each and what it has granted.
    pub(crate) fn read_buses(self, words: &[u32], from: u32) -> Result<(Self, u32), StateRefusal>
        requires few { length words.now < 2 ^ 32 }
        requires inside { from ≤ length words.now }
        ensures read { IfOk result (λ r. BusesAreRead words.now from self r.0 r.1) }
        ensures refused { IfErr result
            (λ e. read_buses (item_count self.items) self (range_with_len 0 (length self.traffic)) [] from
            (drop from words.now)
            ≡ Err e) }
        ensures inside { IfOk result (λ r. r.1 ≤ length words.now) }
    {
        let buses = self.counts().buses;
        let mut parts = self;
        let mut at = from;
        for bus in 0..buses {
            let (next, after) = parts.read_bus(BusNo(bus), words, at)?;
            parts = next;
            at = after;
        }
        Ok((parts, at))
    }

    /// Reads so many operations in place of those that are there.
    pub(crate) fn read_ops(
        self,
        retired: u32,
        words: &[u32],
        from: u32,
    ) -> Result<(Self, u32), StateRefusal>
        requires few { length words.now < 2 ^ 32 }
        requires inside { from ≤ length words.now }
        ensures read { IfOk result (λ r. OpsAreRead retired words.now from self r.0 r.1) }
        ensures refused { IfErr result
            (λ e. e ≢ NoMemory →
            times (read_op (depth_of self) (tree_counts self).leaves) retired [] from (drop from words.now)
            ≡ Err e) }
        ensures inside { IfOk result (λ r. r.1 ≤ length words.now) }
        ensures many { IfOk result (λ r. length r.0.ops ≡ retired) }
    {
        let counts = self.counts();
        let mut parts = self;
        let mut at = from;
        fill_ops(&mut parts.ops, retired, words, &mut at, counts)?;
        Ok((parts, at))
    }
}
