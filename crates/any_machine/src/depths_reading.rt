//! What is read of a machine, for each number of levels of buses.

ghost use Rattle.std.specs.Prelude.{◌≡◌, ◌<◌, ◌≤◌, Some, length, take, true};
ghost use Rattle.any_machine.specs.DdmTypes.ItemTable.{item_count};
ghost use Rattle.any_machine.specs.TreeModel.State.Shape.{IsShaped, tree_counts};
ghost use Rattle.any_machine.specs.TreeModel.Turns.Found.{found_copy, states_of};
ghost use Rattle.any_machine.specs.TreeModel.Turns.Machine.{child_count, is_child_of, leaf_lengths_at, lengths_at, names_part, turn_of};
ghost use Rattle.any_machine.specs.TreeModel.Turns.Tree.{bus_of_number, leaf_of_number};
ghost use Rattle.any_machine.specs.SplitBus.Outcomes.{is_granted};
ghost use Rattle.any_machine.specs.DdmTree.Machine.{is_part};
ghost use Rattle.any_machine.specs.DdmTree.Reads.{counted_hart_of, is_down_request_or_reply, leaving_count_of, state_of};
ghost use Rattle.any_machine.specs.DdmTree.Rules.{KeepsRules};
ghost use Rattle.any_machine.specs.Any.{depths_state};

use crate::machine::Depths;
use crate::of_ddm_tree::{Dir, Found, Machine, Subtree};
use crate::of_ddm_types::{
    BusNo, ChildNo, HartNo, ItemId, Items, LeafNo, LeafState, TreeCounts, Turn,
};
use crate::of_operation_list::Operations;
use crate::of_rv_hart::Hart;
use crate::of_tree_model::{DirLengths, LeafLengths, Traffic};
use inspector::{find, state};

// Each call below has one for machines whose directories under bus 0 are over these children: a check of three types within one
// another is beyond its limits.

fn counts_over<const WORDS: usize, C: Subtree<WORDS>>(
    machine: &Machine<WORDS, Dir<WORDS, C>>,
) -> TreeCounts
    ensures counts { result ≡ tree_counts machine.now.machine }
    ensures shape { IsShaped machine.now.machine }
    ensures rules { KeepsRules machine.now.machine }
{
    machine.counts()
}

fn items_over<const WORDS: usize, C: Subtree<WORDS>>(
    machine: &Machine<WORDS, Dir<WORDS, C>>,
) -> &Items
    ensures { result.now ≡ machine.now.machine.items }
{
    machine.items()
}

fn ops_over<const WORDS: usize, C: Subtree<WORDS>>(
    machine: &Machine<WORDS, Dir<WORDS, C>>,
) -> &Operations
    ensures { result.now.items ≡ machine.now.machine.ops }
{
    machine.ops()
}

fn traffic_over<const WORDS: usize, C: Subtree<WORDS>>(
    machine: &Machine<WORDS, Dir<WORDS, C>>,
) -> &[Traffic]
    ensures { result.now ≡ machine.now.machine.traffic }
{
    machine.traffic()
}

fn hart_over<const WORDS: usize, C: Subtree<WORDS>>(
    machine: &Machine<WORDS, Dir<WORDS, C>>,
    hart: HartNo,
) -> &Hart
    requires { is_part (leaf_of_number hart) machine.now.machine ≡ true }
    ensures { Some result.now ≡ counted_hart_of hart machine.now.machine }
{
    machine.hart(hart)
}

fn find_over<const WORDS: usize, C: Subtree<WORDS>>(
    machine: &Machine<WORDS, Dir<WORDS, C>>,
    item: ItemId,
) -> Found<WORDS>
    requires { item < item_count machine.now.machine.items }
    ensures { Some result ≡ found_copy item machine.now.machine }
{
    find(machine, item)
}

#[inline(always)]
fn state_over<const WORDS: usize, C: Subtree<WORDS>>(
    machine: &Machine<WORDS, Dir<WORDS, C>>,
    item: ItemId,
    leaf: LeafNo,
) -> Option<LeafState>
    requires { is_part (leaf_of_number leaf) machine.now.machine ≡ true }
    ensures { Some result ≡ state_of leaf item machine.now.machine }
{
    state(machine, item, leaf)
}

fn states_over<const WORDS: usize, C: Subtree<WORDS>>(
    machine: &Machine<WORDS, Dir<WORDS, C>>,
    item: ItemId,
    states: &mut [Option<LeafState>],
)
    requires { (tree_counts machine.now.machine).leaves ≤ length states.old }
    ensures { take (tree_counts machine.now.machine).leaves states.new ≡ states_of item machine.now.machine }
{
    machine.states(item, states);
}

fn children_over<const WORDS: usize, C: Subtree<WORDS>>(
    machine: &Machine<WORDS, Dir<WORDS, C>>,
    bus: BusNo,
) -> u32
    requires { is_part (bus_of_number bus) machine.now.machine ≡ true }
    ensures { Some result ≡ child_count bus machine.now.machine }
{
    machine.children(bus)
}

fn leaving_count_over<const WORDS: usize, C: Subtree<WORDS>>(
    machine: &Machine<WORDS, Dir<WORDS, C>>,
    bus: BusNo,
    child: ChildNo,
) -> u32
    requires { is_child_of child (child_count bus machine.now.machine) ≡ true }
    ensures { Some result ≡ leaving_count_of bus child machine.now.machine }
{
    machine.leaving_count(bus, child)
}

fn list_lengths_over<const WORDS: usize, C: Subtree<WORDS>>(
    machine: &Machine<WORDS, Dir<WORDS, C>>,
    bus: BusNo,
) -> DirLengths
    requires { is_part (bus_of_number bus) machine.now.machine ≡ true }
    ensures { Some result ≡ lengths_at bus machine.now.machine }
{
    machine.list_lengths(bus)
}

fn leaf_lengths_over<const WORDS: usize, C: Subtree<WORDS>>(
    machine: &Machine<WORDS, Dir<WORDS, C>>,
    leaf: LeafNo,
) -> LeafLengths
    requires { is_part (leaf_of_number leaf) machine.now.machine ≡ true }
    ensures { Some result ≡ leaf_lengths_at leaf machine.now.machine }
{
    machine.leaf_lengths(leaf)
}

fn would_grant_over<const WORDS: usize, C: Subtree<WORDS>>(
    machine: &Machine<WORDS, Dir<WORDS, C>>,
    turn: Turn,
) -> bool
    requires kind { is_down_request_or_reply turn ≡ true }
    requires named { names_part turn machine.now.machine ≡ true }
    ensures { result ≡ is_granted (turn_of turn machine.now.machine).answer }
{
    machine.would_grant(turn)
}

impl<const WAYS: usize, const WORDS: usize> Depths<WAYS, WORDS> {
    /// How many leaves, buses and levels of buses the tree has.
    pub fn counts(&self) -> TreeCounts
        ensures counts { result ≡ tree_counts (depths_state self.now).machine }
        ensures shape { IsShaped (depths_state self.now).machine }
        ensures rules { KeepsRules (depths_state self.now).machine }
    {
        match self {
            Depths::OneLevel(machine) => machine.counts(),
            Depths::TwoLevels(machine) => machine.counts(),
            Depths::ThreeLevels(machine) => counts_over(machine),
            Depths::FourLevels(machine) => counts_over(machine),
        }
    }

    pub fn items(&self) -> &Items
        ensures { result.now ≡ (depths_state self.now).machine.items }
    {
        match self {
            Depths::OneLevel(machine) => machine.items(),
            Depths::TwoLevels(machine) => machine.items(),
            Depths::ThreeLevels(machine) => items_over(machine),
            Depths::FourLevels(machine) => items_over(machine),
        }
    }

    /// The operations, in order of completion.
    pub fn ops(&self) -> &Operations
        ensures { result.now.items ≡ (depths_state self.now).machine.ops }
    {
        match self {
            Depths::OneLevel(machine) => machine.ops(),
            Depths::TwoLevels(machine) => machine.ops(),
            Depths::ThreeLevels(machine) => ops_over(machine),
            Depths::FourLevels(machine) => ops_over(machine),
        }
    }

    /// For each bus how many transactions of each kind it has granted.
    pub fn traffic(&self) -> &[Traffic]
        ensures { result.now ≡ (depths_state self.now).machine.traffic }
    {
        match self {
            Depths::OneLevel(machine) => machine.traffic(),
            Depths::TwoLevels(machine) => machine.traffic(),
            Depths::ThreeLevels(machine) => traffic_over(machine),
            Depths::FourLevels(machine) => traffic_over(machine),
        }
    }

    pub fn hart(&self, hart: HartNo) -> &Hart
        requires { is_part (leaf_of_number hart) (depths_state self.now).machine ≡ true }
        ensures { Some result.now ≡ counted_hart_of hart (depths_state self.now).machine }
    {
        match self {
            Depths::OneLevel(machine) => machine.hart(hart),
            Depths::TwoLevels(machine) => machine.hart(hart),
            Depths::ThreeLevels(machine) => hart_over(machine, hart),
            Depths::FourLevels(machine) => hart_over(machine, hart),
        }
    }

    /// The current copy of an item, which every item has.
    pub fn find(&self, item: ItemId) -> Found<WORDS>
        requires { item < item_count (depths_state self.now).machine.items }
        ensures { Some result ≡ found_copy item (depths_state self.now).machine }
    {
        match self {
            Depths::OneLevel(machine) => find(machine, item),
            Depths::TwoLevels(machine) => find(machine, item),
            Depths::ThreeLevels(machine) => find_over(machine, item),
            Depths::FourLevels(machine) => find_over(machine, item),
        }
    }

    /// The state of a leaf's entry of an item.
    #[inline(always)]
    pub fn state(&self, item: ItemId, leaf: LeafNo) -> Option<LeafState>
        requires { is_part (leaf_of_number leaf) (depths_state self.now).machine ≡ true }
        ensures { Some result ≡ state_of leaf item (depths_state self.now).machine }
    {
        match self {
            Depths::OneLevel(machine) => state(machine, item, leaf),
            Depths::TwoLevels(machine) => state(machine, item, leaf),
            Depths::ThreeLevels(machine) => state_over(machine, item, leaf),
            Depths::FourLevels(machine) => state_over(machine, item, leaf),
        }
    }

    /// Puts the states of an item's entries at all leaves, in order, into the first places.
    pub fn states(&self, item: ItemId, states: &mut [Option<LeafState>])
        requires { (tree_counts (depths_state self.now).machine).leaves ≤ length states.old }
        ensures { take (tree_counts (depths_state self.now).machine).leaves states.new ≡ states_of item (depths_state self.now).machine }
    {
        match self {
            Depths::OneLevel(machine) => machine.states(item, states),
            Depths::TwoLevels(machine) => machine.states(item, states),
            Depths::ThreeLevels(machine) => states_over(machine, item, states),
            Depths::FourLevels(machine) => states_over(machine, item, states),
        }
    }

    /// How many children a bus has.
    pub fn children(&self, bus: BusNo) -> u32
        requires { is_part (bus_of_number bus) (depths_state self.now).machine ≡ true }
        ensures { Some result ≡ child_count bus (depths_state self.now).machine }
    {
        match self {
            Depths::OneLevel(machine) => machine.children(bus),
            Depths::TwoLevels(machine) => machine.children(bus),
            Depths::ThreeLevels(machine) => children_over(machine, bus),
            Depths::FourLevels(machine) => children_over(machine, bus),
        }
    }

    /// How many copies of a child of a bus may leave.
    pub fn leaving_count(&self, bus: BusNo, child: ChildNo) -> u32
        requires { is_child_of child (child_count bus (depths_state self.now).machine) ≡ true }
        ensures { Some result ≡ leaving_count_of bus child (depths_state self.now).machine }
    {
        match self {
            Depths::OneLevel(machine) => machine.leaving_count(bus, child),
            Depths::TwoLevels(machine) => machine.leaving_count(bus, child),
            Depths::ThreeLevels(machine) => leaving_count_over(machine, bus, child),
            Depths::FourLevels(machine) => leaving_count_over(machine, bus, child),
        }
    }

    /// How long the lists of the directory over a bus are; over bus 0 it is the top.
    pub fn list_lengths(&self, bus: BusNo) -> DirLengths
        requires { is_part (bus_of_number bus) (depths_state self.now).machine ≡ true }
        ensures { Some result ≡ lengths_at bus (depths_state self.now).machine }
    {
        match self {
            Depths::OneLevel(machine) => machine.list_lengths(bus),
            Depths::TwoLevels(machine) => machine.list_lengths(bus),
            Depths::ThreeLevels(machine) => list_lengths_over(machine, bus),
            Depths::FourLevels(machine) => list_lengths_over(machine, bus),
        }
    }

    /// How long the lists of a leaf are.
    pub fn leaf_lengths(&self, leaf: LeafNo) -> LeafLengths
        requires { is_part (leaf_of_number leaf) (depths_state self.now).machine ≡ true }
        ensures { Some result ≡ leaf_lengths_at leaf (depths_state self.now).machine }
    {
        match self {
            Depths::OneLevel(machine) => machine.leaf_lengths(leaf),
            Depths::TwoLevels(machine) => machine.leaf_lengths(leaf),
            Depths::ThreeLevels(machine) => leaf_lengths_over(machine, leaf),
            Depths::FourLevels(machine) => leaf_lengths_over(machine, leaf),
        }
    }

    /// Whether a Down, Request or Reply turn would be granted. It takes no memory.
    pub fn would_grant(&self, turn: Turn) -> bool
        requires kind { is_down_request_or_reply turn ≡ true }
        requires named { names_part turn (depths_state self.now).machine ≡ true }
        ensures { result ≡ is_granted (turn_of turn (depths_state self.now).machine).answer }
    {
        match self {
            Depths::OneLevel(machine) => machine.would_grant(turn),
            Depths::TwoLevels(machine) => machine.would_grant(turn),
            Depths::ThreeLevels(machine) => would_grant_over(machine, turn),
            Depths::FourLevels(machine) => would_grant_over(machine, turn),
        }
    }
}
