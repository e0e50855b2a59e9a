//! What is read of a machine of any tree.

ghost use Rattle.std.specs.Prelude.{◌≡◌, ◌<◌, ◌≤◌, Some, length, take, true};
ghost use Rattle.any_machine.specs.DdmTypes.ItemTable.{item_count};
ghost use Rattle.any_machine.specs.TreeModel.State.Shape.{IsShaped, tree_counts};
ghost use Rattle.any_machine.specs.TreeModel.Turns.Found.{found_copy, states_of};
ghost use Rattle.any_machine.specs.TreeModel.Turns.Machine.{child_count, is_child_of, leaf_lengths_at, lengths_at, names_part, turn_of};
ghost use Rattle.any_machine.specs.TreeModel.Turns.Tree.{bus_of_number, leaf_of_number};
ghost use Rattle.any_machine.specs.SplitBus.Outcomes.{is_granted};
ghost use Rattle.any_machine.specs.DdmTree.Machine.{is_part};
ghost use Rattle.any_machine.specs.DdmTree.Reads.{counted_hart_of, is_down_request_or_reply, leaving_count_of, state_of};
ghost use Rattle.any_machine.specs.DdmTree.Rules.{KeepsRules};
ghost use Rattle.any_machine.specs.Any.{machine_state, state_in};

use crate::machine::{AnyMachine, Machines};
use crate::of_ddm_tree::Found;
use crate::of_ddm_types::{
    BusNo, ChildNo, HartNo, ItemId, Items, LeafNo, LeafState, TreeCounts, Turn,
};
use crate::of_operation_list::Operations;
use crate::of_rv_hart::Hart;
use crate::of_tree_model::{DirLengths, LeafLengths, Traffic};

impl<const WORDS: usize> Machines<WORDS> {
    /// How many leaves, buses and levels of buses the tree has.
    pub fn counts(&self) -> TreeCounts
        ensures counts { result ≡ tree_counts (state_in self.now).machine }
        ensures shape { IsShaped (state_in self.now).machine }
        ensures rules { KeepsRules (state_in self.now).machine }
    {
        match self {
            Machines::OneWay(machine) => machine.counts(),
            Machines::TwoWays(machine) => machine.counts(),
            Machines::FourWays(machine) => machine.counts(),
        }
    }

    pub fn items(&self) -> &Items
        ensures { result.now ≡ (state_in self.now).machine.items }
    {
        match self {
            Machines::OneWay(machine) => machine.items(),
            Machines::TwoWays(machine) => machine.items(),
            Machines::FourWays(machine) => machine.items(),
        }
    }

    /// The operations, in order of completion.
    pub fn ops(&self) -> &Operations
        ensures { result.now.items ≡ (state_in self.now).machine.ops }
    {
        match self {
            Machines::OneWay(machine) => machine.ops(),
            Machines::TwoWays(machine) => machine.ops(),
            Machines::FourWays(machine) => machine.ops(),
        }
    }

    /// For each bus how many transactions of each kind it has granted.
    pub fn traffic(&self) -> &[Traffic]
        ensures { result.now ≡ (state_in self.now).machine.traffic }
    {
        match self {
            Machines::OneWay(machine) => machine.traffic(),
            Machines::TwoWays(machine) => machine.traffic(),
            Machines::FourWays(machine) => machine.traffic(),
        }
    }

    pub fn hart(&self, hart: HartNo) -> &Hart
        requires { is_part (leaf_of_number hart) (state_in self.now).machine ≡ true }
        ensures { Some result.now ≡ counted_hart_of hart (state_in self.now).machine }
    {
        match self {
            Machines::OneWay(machine) => machine.hart(hart),
            Machines::TwoWays(machine) => machine.hart(hart),
            Machines::FourWays(machine) => machine.hart(hart),
        }
    }

    /// The current copy of an item, which every item has.
    pub fn find(&self, item: ItemId) -> Found<WORDS>
        requires { item < item_count (state_in self.now).machine.items }
        ensures { Some result ≡ found_copy item (state_in self.now).machine }
    {
        match self {
            Machines::OneWay(machine) => machine.find(item),
            Machines::TwoWays(machine) => machine.find(item),
            Machines::FourWays(machine) => machine.find(item),
        }
    }

    /// The state of a leaf's entry of an item.
    #[inline(always)]
    pub fn state(&self, item: ItemId, leaf: LeafNo) -> Option<LeafState>
        requires { is_part (leaf_of_number leaf) (state_in self.now).machine ≡ true }
        ensures { Some result ≡ state_of leaf item (state_in self.now).machine }
    {
        match self {
            Machines::OneWay(machine) => machine.state(item, leaf),
            Machines::TwoWays(machine) => machine.state(item, leaf),
            Machines::FourWays(machine) => machine.state(item, leaf),
        }
    }

    /// Puts the states of an item's entries at all leaves, in order, into the first places.
    pub fn states(&self, item: ItemId, states: &mut [Option<LeafState>])
        requires { (tree_counts (state_in self.now).machine).leaves ≤ length states.old }
        ensures { take (tree_counts (state_in self.now).machine).leaves states.new ≡ states_of item (state_in self.now).machine }
    {
        match self {
            Machines::OneWay(machine) => machine.states(item, states),
            Machines::TwoWays(machine) => machine.states(item, states),
            Machines::FourWays(machine) => machine.states(item, states),
        }
    }

    /// How many children a bus has.
    pub fn children(&self, bus: BusNo) -> u32
        requires { is_part (bus_of_number bus) (state_in self.now).machine ≡ true }
        ensures { Some result ≡ child_count bus (state_in self.now).machine }
    {
        match self {
            Machines::OneWay(machine) => machine.children(bus),
            Machines::TwoWays(machine) => machine.children(bus),
            Machines::FourWays(machine) => machine.children(bus),
        }
    }

    /// How many copies of a child of a bus may leave.
    pub fn leaving_count(&self, bus: BusNo, child: ChildNo) -> u32
        requires { is_child_of child (child_count bus (state_in self.now).machine) ≡ true }
        ensures { Some result ≡ leaving_count_of bus child (state_in self.now).machine }
    {
        match self {
            Machines::OneWay(machine) => machine.leaving_count(bus, child),
            Machines::TwoWays(machine) => machine.leaving_count(bus, child),
            Machines::FourWays(machine) => machine.leaving_count(bus, child),
        }
    }

    /// How long the lists of the directory over a bus are; over bus 0 it is the top.
    pub fn list_lengths(&self, bus: BusNo) -> DirLengths
        requires { is_part (bus_of_number bus) (state_in self.now).machine ≡ true }
        ensures { Some result ≡ lengths_at bus (state_in self.now).machine }
    {
        match self {
            Machines::OneWay(machine) => machine.list_lengths(bus),
            Machines::TwoWays(machine) => machine.list_lengths(bus),
            Machines::FourWays(machine) => machine.list_lengths(bus),
        }
    }

    /// How long the lists of a leaf are.
    pub fn leaf_lengths(&self, leaf: LeafNo) -> LeafLengths
        requires { is_part (leaf_of_number leaf) (state_in self.now).machine ≡ true }
        ensures { Some result ≡ leaf_lengths_at leaf (state_in self.now).machine }
    {
        match self {
            Machines::OneWay(machine) => machine.leaf_lengths(leaf),
            Machines::TwoWays(machine) => machine.leaf_lengths(leaf),
            Machines::FourWays(machine) => machine.leaf_lengths(leaf),
        }
    }

    /// Whether a Down, Request or Reply turn would be granted. It takes no memory.
    pub fn would_grant(&self, turn: Turn) -> bool
        requires kind { is_down_request_or_reply turn ≡ true }
        requires named { names_part turn (state_in self.now).machine ≡ true }
        ensures { result ≡ is_granted (turn_of turn (state_in self.now).machine).answer }
    {
        match self {
            Machines::OneWay(machine) => machine.would_grant(turn),
            Machines::TwoWays(machine) => machine.would_grant(turn),
            Machines::FourWays(machine) => machine.would_grant(turn),
        }
    }
}

impl AnyMachine {
    /// How many leaves, buses and levels of buses the tree has.
    pub fn counts(&self) -> TreeCounts
        ensures counts { result ≡ tree_counts (machine_state self.now).machine }
        ensures shape { IsShaped (machine_state self.now).machine }
        ensures rules { KeepsRules (machine_state self.now).machine }
    {
        match self {
            AnyMachine::Narrow(machine) => machine.counts(),
            AnyMachine::Wide(machine) => machine.counts(),
        }
    }

    pub fn items(&self) -> &Items
        ensures { result.now ≡ (machine_state self.now).machine.items }
    {
        match self {
            AnyMachine::Narrow(machine) => machine.items(),
            AnyMachine::Wide(machine) => machine.items(),
        }
    }

    /// The operations, in order of completion.
    pub fn ops(&self) -> &Operations
        ensures { result.now.items ≡ (machine_state self.now).machine.ops }
    {
        match self {
            AnyMachine::Narrow(machine) => machine.ops(),
            AnyMachine::Wide(machine) => machine.ops(),
        }
    }

    /// The state of a leaf's entry of an item.
    #[inline(always)]
    pub fn state(&self, item: ItemId, leaf: LeafNo) -> Option<LeafState>
        requires { is_part (leaf_of_number leaf) (machine_state self.now).machine ≡ true }
        ensures { Some result ≡ state_of leaf item (machine_state self.now).machine }
    {
        match self {
            AnyMachine::Narrow(machine) => machine.state(item, leaf),
            AnyMachine::Wide(machine) => machine.state(item, leaf),
        }
    }

    /// How many children a bus has.
    pub fn children(&self, bus: BusNo) -> u32
        requires { is_part (bus_of_number bus) (machine_state self.now).machine ≡ true }
        ensures { Some result ≡ child_count bus (machine_state self.now).machine }
    {
        match self {
            AnyMachine::Narrow(machine) => machine.children(bus),
            AnyMachine::Wide(machine) => machine.children(bus),
        }
    }

    /// How many copies of a child of a bus may leave.
    pub fn leaving_count(&self, bus: BusNo, child: ChildNo) -> u32
        requires { is_child_of child (child_count bus (machine_state self.now).machine) ≡ true }
        ensures { Some result ≡ leaving_count_of bus child (machine_state self.now).machine }
    {
        match self {
            AnyMachine::Narrow(machine) => machine.leaving_count(bus, child),
            AnyMachine::Wide(machine) => machine.leaving_count(bus, child),
        }
    }

    /// How long the lists of the directory over a bus are; over bus 0 it is the top.
    pub fn list_lengths(&self, bus: BusNo) -> DirLengths
        requires { is_part (bus_of_number bus) (machine_state self.now).machine ≡ true }
        ensures { Some result ≡ lengths_at bus (machine_state self.now).machine }
    {
        match self {
            AnyMachine::Narrow(machine) => machine.list_lengths(bus),
            AnyMachine::Wide(machine) => machine.list_lengths(bus),
        }
    }

    /// How long the lists of a leaf are.
    pub fn leaf_lengths(&self, leaf: LeafNo) -> LeafLengths
        requires { is_part (leaf_of_number leaf) (machine_state self.now).machine ≡ true }
        ensures { Some result ≡ leaf_lengths_at leaf (machine_state self.now).machine }
    {
        match self {
            AnyMachine::Narrow(machine) => machine.leaf_lengths(leaf),
            AnyMachine::Wide(machine) => machine.leaf_lengths(leaf),
        }
    }

    /// Whether a Down, Request or Reply turn would be granted. It takes no memory.
    pub fn would_grant(&self, turn: Turn) -> bool
        requires kind { is_down_request_or_reply turn ≡ true }
        requires named { names_part turn (machine_state self.now).machine ≡ true }
        ensures { result ≡ is_granted (turn_of turn (machine_state self.now).machine).answer }
    {
        match self {
            AnyMachine::Narrow(machine) => machine.would_grant(turn),
            AnyMachine::Wide(machine) => machine.would_grant(turn),
        }
    }
}
