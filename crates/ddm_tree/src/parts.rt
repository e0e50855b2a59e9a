//! A machine taken apart, into which words can be read.

ghost use Rattle.std.specs.Prelude.{◌≡◌, ◌<◌, ◌≤◌, ◌^◌, ℕ, List, Some, true, length, map, vec_items, IfErr, IfOk};
ghost use Rattle.std.specs.List.{list_all};
ghost use Rattle.ddm_tree.specs.DdmTypes.ItemTable.{item_count};
ghost use Rattle.ddm_tree.specs.TreeModel.State.Rooms.{all_within};
ghost use Rattle.ddm_tree.specs.TreeModel.State.Shape.{skeleton, tree_counts, widths_fit};
ghost use Rattle.ddm_tree.specs.TreeModel.State.Values.{dir_node, nodes, root_of};
ghost use Rattle.state_judging.specs.Read.{CanRead};
ghost use Rattle.ddm_tree.specs.Counts.{counts_within};
ghost use Rattle.ddm_tree.specs.Machine.{has_path, is_part, listed_path, traffic_within};
ghost use Rattle.ddm_tree.specs.Named.{name_of};
ghost use Rattle.ddm_tree.specs.Parts.{SectionRead, SectionRefused};
ghost use Rattle.ddm_tree.specs.ReadBack.{PartRead, section_name};
ghost use Rattle.ddm_tree.specs.Ready.{Leads};
ghost use Rattle.ddm_tree.specs.Rules.{KeepsRules};

use crate::idle::{IdleHarts, forget_all};
use crate::machine::{Machine, path_of};
use crate::named::Named;
use crate::of_ddm_types::{ChildNo, Code, Items, TreeCounts};
use crate::of_state_reading::StateRefusal;
use crate::of_tree_model::Traffic;
use crate::quiet::{Quiet, forget_quiet};
use crate::read_back::read_under;
use crate::section::Section;
use crate::subtree::Subtree;
use operation_list::Operations;
use std::marker::Model;
use top_node::TopState;

/// A machine taken apart, so that words can be read into it. It keeps its shape, and no rule of a bus.
#[derive(Drop)]
pub struct Parts<const WORDS: usize, C: Subtree<WORDS>> {
    pub(crate) top: TopState<WORDS>,
    pub(crate) children: Vec<C>,
    pub(crate) code: Code,
    pub(crate) items: Items,
    pub(crate) ops: Operations,
    pub(crate) traffic: Vec<Traffic>,
    pub(crate) counts: TreeCounts,
    pub(crate) leaf_paths: Vec<Vec<ChildNo>>,
    pub(crate) bus_paths: Vec<Vec<ChildNo>>,
    pub(crate) bus_leaves: Vec<Vec<usize>>,
    /// A place for each leaf, for the machine that is put together.
    pub(crate) idle: IdleHarts,
    /// A place for each number, in the same way.
    pub(crate) quiet: Vec<Quiet>,
}

impl<const WORDS: usize, C: Subtree<WORDS>> Model for Parts<WORDS, C> {
    ghost use Rattle.std.specs.Prelude.{◌≡◌, ◌*◌, ◌^◌, ◌<◌, map, vec_items};
    ghost use Rattle.ddm_tree.specs.TreeModel.State.Shape.{tree_counts};
    ghost use Rattle.ddm_tree.specs.TreeModel.State.Values.{MachineValue};
    ghost use Rattle.ddm_tree.specs.Codes.{value_code};
    ghost use Rattle.ddm_tree.specs.Machine.{machine_of};
    ghost use Rattle.ddm_tree.specs.Parts.{IsParts};
    ghost use Rattle.ddm_tree.specs.Quiet.{AreNear};

    ghost Value = { MachineValue };

    ghost coded = { value_code };

    ghost view = { λ m. machine_of m.code m.items m.top (map C.value m.children.items) m.ops.items m.traffic.items };

    ghost invariant = { λ m. IsParts WORDS
        (machine_of m.code m.items m.top (map C.value m.children.items) m.ops.items m.traffic.items)
        (map vec_items m.leaf_paths.items) (map vec_items m.bus_paths.items)
        × (tree_counts (machine_of m.code m.items m.top (map C.value m.children.items) m.ops.items m.traffic.items) ≡ m.counts)
        × (WORDS < 2 ^ 32) × (m.items.size ≡ 4 * WORDS)
        × AreNear (map vec_items m.bus_leaves.items) (map vec_items m.bus_paths.items) (map vec_items m.leaf_paths.items) };
}

/// What a section is named by.
fn section_name(section: &Section) -> Named
    ensures { name_of result ≡ section_name section.now }
{
    match section {
        Section::Hart(leaf) | Section::Leaf(leaf) => Named::Leaf(*leaf),
        Section::Bus(bus) => Named::Bus(*bus),
    }
}

/// Reads a section into the leaf or the directory that it is of, whose path is listed.
fn read_into<const WORDS: usize, C: Subtree<WORDS>>(
    top: &mut TopState<WORDS>,
    children: &mut [C],
    leaf_paths: &[Vec<ChildNo>],
    bus_paths: &[Vec<ChildNo>],
    section: Section,
    words: &[u32],
    from: u32,
) -> Result<u32, StateRefusal>
    requires few { length words.now < 2 ^ 32 }
    requires inside { from ≤ length words.now }
    requires buses { widths_fit (skeleton (dir_node top.old (nodes (map C.value children.old)))) ≡ true }
    requires listed { has_path (section_name section) (length leaf_paths.now) (length bus_paths.now) }
    requires leads { (path : List ℕ) →
        listed_path (section_name section) (map vec_items leaf_paths.now) (map vec_items bus_paths.now)
        ≡ Some path → Leads (section_name section) path (dir_node top.old (nodes (map C.value children.old))) }
    ensures read { (path : List ℕ) →
        listed_path (section_name section) (map vec_items leaf_paths.now) (map vec_items bus_paths.now)
        ≡ Some path →
        PartRead section path words.now from (dir_node top.old (nodes (map C.value children.old)))
        (dir_node top.new (nodes (map C.value children.new))) result }
    ensures inside { IfOk result (λ at. at ≤ length words.now) }
{
    let path = path_of(section_name(&section), leaf_paths, bus_paths);
    if path.is_empty() {
        top.read_part(words, from, children.len() as u32)
    } else {
        read_under(top, children, section, path, words, from)
    }
}

impl<const WORDS: usize, C: Subtree<WORDS>> Machine<WORDS, C> {
    /// The machine taken apart.
    pub fn into_parts(self) -> Parts<WORDS, C>
        ensures value { result ≡ self.machine }
        ensures readable { CanRead self.machine }
    {
        let _ = self.top.capacity();
        Parts {
            top: self.top,
            children: self.children,
            code: self.code,
            items: self.items,
            ops: self.ops,
            traffic: self.traffic,
            counts: self.counts,
            leaf_paths: self.leaf_paths,
            bus_paths: self.bus_paths,
            bus_leaves: self.bus_leaves,
            idle: self.idle,
            quiet: self.quiet,
        }
    }
}

impl<const WORDS: usize, C: Subtree<WORDS> + Drop> Parts<WORDS, C> {
    /// The machine put together, with no memory for operations but for those that it has. However many turns there were, they are
    /// taken to be 1,048,576, which no count is above.
    pub fn into_machine(self) -> Machine<WORDS, C>
        requires rules { KeepsRules self }
        requires counts { counts_within 1048576 (root_of self) ≡ true }
        requires granted { list_all (traffic_within 1048576) self.traffic ≡ true }
        ensures { result ≡ record { machine = self; spare = 0; turns = 1048576 } }
    {
        let mut idle = self.idle;
        forget_all(&mut idle);
        let mut quiet = self.quiet;
        forget_quiet(&mut quiet);
        Machine {
            top: self.top,
            children: self.children,
            code: self.code,
            items: self.items,
            ops: self.ops,
            traffic: self.traffic,
            counts: self.counts,
            leaf_paths: self.leaf_paths,
            bus_paths: self.bus_paths,
            bus_leaves: self.bus_leaves,
            idle,
            quiet,
            spare: 0,
            turns: 1_048_576,
        }
    }
}

impl<const WORDS: usize, C: Subtree<WORDS>> Parts<WORDS, C> {
    /// How many leaves, buses and levels of buses the tree has.
    pub fn counts(&self) -> TreeCounts
        ensures counts { result ≡ tree_counts self.now }
        ensures readable { CanRead self.now }
        ensures rooms { all_within (item_count self.now.items) (root_of self.now) ≡ true }
    {
        self.counts
    }
}

impl<const WORDS: usize, C: Subtree<WORDS> + Drop> Parts<WORDS, C> {
    /// Reads the words of a section, from this one on, into the leaf or the directory that it is of, and gives the number of the next
    /// word.
    pub(crate) fn read_section(
        self,
        section: Section,
        words: &[u32],
        from: u32,
    ) -> Result<(Self, u32), StateRefusal>
        requires few { length words.now < 2 ^ 32 }
        requires inside { from ≤ length words.now }
        requires there { is_part (section_name section) self ≡ true }
        ensures read { IfOk result (λ r. SectionRead section words.now from self r.0 r.1) }
        ensures refused { IfErr result (λ e. SectionRefused section words.now from self e) }
        ensures inside { IfOk result (λ r. r.1 ≤ length words.now) }
    {
        let mut parts = self;
        let at = read_into(
            &mut parts.top,
            &mut parts.children,
            &parts.leaf_paths,
            &parts.bus_paths,
            section,
            words,
            from,
        )?;
        Ok((parts, at))
    }
}
