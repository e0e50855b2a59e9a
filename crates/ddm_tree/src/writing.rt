//! The words of a machine.

ghost use Rattle.std.specs.Prelude.{◌≡◌, ◌<◌, ◌^◌, true, length, map, OnErr, OnOk};
ghost use Rattle.std.specs.List.{flat_map, range_with_len};
ghost use Rattle.ddm_tree.specs.DdmText.Adds.{Adds};
ghost use Rattle.ddm_tree.specs.TreeModel.State.Values.{dir_node, nodes};
ghost use Rattle.ddm_tree.specs.TreeModel.Turns.Machine.{machine_leaves};
ghost use Rattle.ddm_tree.specs.TreeModel.Turns.Tree.{leaf_of_number, bus_of_number};
ghost use Rattle.ddm_tree.specs.StateWords.Begins.{Begins};
ghost use Rattle.ddm_tree.specs.StateWords.Machine.{bus_words, first_way_count, sizes_of, state_words};
ghost use Rattle.ddm_tree.specs.StateWords.Parts.{counted, hart_words, leaf_words, op_words};
ghost use Rattle.ddm_tree.specs.Machine.{is_part};
ghost use Rattle.ddm_tree.specs.Path.{node_at};
ghost use Rattle.ddm_tree.specs.Ready.{Leads};
ghost use Rattle.ddm_tree.specs.Written.{dir_words_of, node_dir_words, node_words, tree_words, words_of_leaf};

use crate::below::next;
use crate::machine::Machine;
use crate::named::Named;
use crate::of_ddm_types::{BusNo, ChildNo, LeafNo, NoMemory};
use crate::of_item_states::Parent;
use crate::of_state_words::{MachineSizes, Spelled, push_words, traffic_words};
use crate::subtree::Subtree;
use operation_list::Operations;

/// The word behind all others.
const END: u32 = 0x454d_4444;

/// How many ways the sets of the leaves below these children have, by the first leaf.
pub(crate) fn ways_among<const WORDS: usize, C: Subtree<WORDS>>(children: &[C]) -> u32
    ensures { result ≡ first_way_count (nodes (map C.value children.now)) }
{
    match children.first() {
        Some(child) => child.ways_below(),
        None => 0,
    }
}

/// Puts the words of the hart of a leaf below a directory at the end.
pub(crate) fn write_hart_under<const WORDS: usize, P: Parent<WORDS>, C: Subtree<WORDS>>(
    parent: &P,
    children: &[C],
    leaf: LeafNo,
    path: &[ChildNo],
    out: &mut Vec<u32>,
) -> Result<(), NoMemory>
    requires leads { Leads (leaf_of_number leaf) path.now (dir_node (P.state parent.now) (nodes (map C.value children.now))) }
    ensures ok { OnOk result
        (Adds out.old.items out.new.items
        (node_words hart_words
        (node_at path.now (dir_node (P.state parent.now) (nodes (map C.value children.now)))))) }
    ensures err { OnErr result (Begins out.old.items out.new.items) }
{
    let (child, rest) = next(parent, children, Named::Leaf(leaf), path);
    child.write_hart_below(leaf, rest, out)
}

/// Puts the words of a leaf below a directory at the end, but those of its hart.
pub(crate) fn write_leaf_under<const WORDS: usize, P: Parent<WORDS>, C: Subtree<WORDS>>(
    parent: &P,
    children: &[C],
    leaf: LeafNo,
    path: &[ChildNo],
    out: &mut Vec<u32>,
) -> Result<(), NoMemory>
    requires leads { Leads (leaf_of_number leaf) path.now (dir_node (P.state parent.now) (nodes (map C.value children.now))) }
    ensures ok { OnOk result
        (Adds out.old.items out.new.items
        (node_words leaf_words
        (node_at path.now (dir_node (P.state parent.now) (nodes (map C.value children.now)))))) }
    ensures err { OnErr result (Begins out.old.items out.new.items) }
{
    let (child, rest) = next(parent, children, Named::Leaf(leaf), path);
    child.write_leaf_below(leaf, rest, out)
}

/// Puts the words of the directory over a bus below a directory at the end.
pub(crate) fn write_part_under<const WORDS: usize, P: Parent<WORDS>, C: Subtree<WORDS>>(
    parent: &P,
    children: &[C],
    bus: BusNo,
    path: &[ChildNo],
    out: &mut Vec<u32>,
) -> Result<(), NoMemory>
    requires leads { Leads (bus_of_number bus) path.now (dir_node (P.state parent.now) (nodes (map C.value children.now))) }
    requires on { 0 < length path.now }
    ensures ok { OnOk result
        (Adds out.old.items out.new.items
        (node_dir_words (node_at path.now (dir_node (P.state parent.now) (nodes (map C.value children.now)))))) }
    ensures err { OnErr result (Begins out.old.items out.new.items) }
{
    let (child, rest) = next(parent, children, Named::Bus(bus), path);
    child.write_part_below(bus, rest, out)
}

/// Puts the words of operations at the end, with how many there are before them.
fn push_ops(out: &mut Vec<u32>, ops: &Operations) -> Result<(), NoMemory>
    requires { length ops.now.items < 2 ^ 32 }
    ensures ok { OnOk result (Adds out.old.items out.new.items (counted op_words ops.now.items)) }
    ensures err { OnErr result (Begins out.old.items out.new.items) }
{
    push_words(out, &[ops.len() as u32])?;
    for place in 0..ops.len() {
        let op = ops.get(place);
        op.spell(out)?;
    }
    Ok(())
}

impl<const WORDS: usize, C: Subtree<WORDS>> Machine<WORDS, C> {
    /// What a checkpoint says of the machine.
    pub fn sizes(&self) -> MachineSizes
        ensures { result ≡ sizes_of self.now.machine }
    {
        let counts = self.counts();
        MachineSizes {
            leaves: counts.leaves,
            buses: counts.buses,
            items: self.items.len(),
            item_words: WORDS as u32,
            ways: ways_among(&self.children),
        }
    }

    /// Puts the words of a leaf's hart at the end.
    pub fn write_hart(&self, leaf: LeafNo, out: &mut Vec<u32>) -> Result<(), NoMemory>
        requires { is_part (leaf_of_number leaf) self.now.machine ≡ true }
        ensures ok { OnOk result (Adds out.old.items out.new.items (words_of_leaf hart_words leaf self.now.machine)) }
        ensures err { OnErr result (Begins out.old.items out.new.items) }
    {
        let path = self.leaf_path(leaf);
        write_hart_under(&self.top, &self.children, leaf, path, out)
    }

    /// Puts the words of a leaf at the end, but those of its hart.
    pub fn write_leaf(&self, leaf: LeafNo, out: &mut Vec<u32>) -> Result<(), NoMemory>
        requires { is_part (leaf_of_number leaf) self.now.machine ≡ true }
        ensures ok { OnOk result (Adds out.old.items out.new.items (words_of_leaf leaf_words leaf self.now.machine)) }
        ensures err { OnErr result (Begins out.old.items out.new.items) }
    {
        let path = self.leaf_path(leaf);
        write_leaf_under(&self.top, &self.children, leaf, path, out)
    }

    /// Puts the words of the directory over a bus at the end.
    pub fn write_part(&self, bus: BusNo, out: &mut Vec<u32>) -> Result<(), NoMemory>
        requires { is_part (bus_of_number bus) self.now.machine ≡ true }
        ensures ok { OnOk result (Adds out.old.items out.new.items (dir_words_of bus self.now.machine)) }
        ensures err { OnErr result (Begins out.old.items out.new.items) }
    {
        let path = self.bus_path(bus);
        if path.is_empty() {
            self.top.write_part(out)
        } else {
            write_part_under(&self.top, &self.children, bus, path, out)
        }
    }

    /// Puts the words of a bus at the end: those of the directory over it, and its traffic.
    fn write_bus(&self, bus: BusNo, out: &mut Vec<u32>) -> Result<(), NoMemory>
        requires { is_part (bus_of_number bus) self.now.machine ≡ true }
        ensures ok { OnOk result (Adds out.old.items out.new.items (bus_words self.now.machine bus)) }
        ensures err { OnErr result (Begins out.old.items out.new.items) }
    {
        self.write_part(bus, out)?;
        push_words(out, &traffic_words(self.traffic[bus.0 as usize]))?;
        Ok(())
    }

    fn write_harts(&self, out: &mut Vec<u32>) -> Result<(), NoMemory>
        ensures ok { OnOk result (Adds out.old.items out.new.items (flat_map hart_words (machine_leaves self.now.machine))) }
        ensures err { OnErr result (Begins out.old.items out.new.items) }
    {
        for leaf in 0..self.counts().leaves {
            self.write_hart(LeafNo(leaf), out)?;
        }
        Ok(())
    }

    fn write_buses(&self, out: &mut Vec<u32>) -> Result<(), NoMemory>
        ensures ok { OnOk result
            (Adds out.old.items out.new.items
            (flat_map (bus_words self.now.machine) (range_with_len 0 (length self.now.machine.traffic)))) }
        ensures err { OnErr result (Begins out.old.items out.new.items) }
    {
        for bus in 0..self.counts().buses {
            self.write_bus(BusNo(bus), out)?;
        }
        Ok(())
    }

    fn write_leaves(&self, out: &mut Vec<u32>) -> Result<(), NoMemory>
        ensures ok { OnOk result (Adds out.old.items out.new.items (flat_map leaf_words (machine_leaves self.now.machine))) }
        ensures err { OnErr result (Begins out.old.items out.new.items) }
    {
        for leaf in 0..self.counts().leaves {
            self.write_leaf(LeafNo(leaf), out)?;
        }
        Ok(())
    }

    /// Puts the words of its tree at the end: of the harts, the buses and the leaves. After `NoMemory` some of them stand there.
    pub fn write_tree(&self, out: &mut Vec<u32>) -> Result<(), NoMemory>
        ensures ok { OnOk result (Adds out.old.items out.new.items (tree_words self.now.machine)) }
        ensures err { OnErr result (Begins out.old.items out.new.items) }
    {
        self.write_harts(out)?;
        self.write_buses(out)?;
        self.write_leaves(out)?;
        Ok(())
    }

    /// Puts the words of its state at the end: of the tree and of the operations, and the end word. After `NoMemory` some of them
    /// stand there.
    pub fn write_state(&self, out: &mut Vec<u32>) -> Result<(), NoMemory>
        requires { length self.now.machine.ops < 2 ^ 32 }
        ensures ok { OnOk result (Adds out.old.items out.new.items (state_words self.now.machine)) }
        ensures err { OnErr result (Begins out.old.items out.new.items) }
    {
        self.write_tree(out)?;
        push_ops(out, self.ops())?;
        push_words(out, &[END])?;
        Ok(())
    }
}
