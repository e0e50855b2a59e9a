//! The greatest lengths of lists: those are looked at that a turn may have changed.

ghost use Rattle.std.specs.Prelude.{◌≡◌, true};
ghost use Rattle.recording.specs.DdmTree.Machine.{is_part};
ghost use Rattle.recording_model.specs.TreeModel.Turns.Machine.{names_part};
ghost use Rattle.recording_model.specs.TreeModel.Turns.Tree.{bus_of_number, leaf_of_number};
ghost use Rattle.measuring.specs.Seen.{all_in, all_over, labels_of, leaf_raised, raised, seen_in, seen_over, turn_in, turn_over};

use ddm_types::{BusNo, ChildNo, LeafNo, Turn};
use recording::of_ddm_tree::{Machine, Subtree};
use tree_model::{DirLengths, LeafLengths, TreeChild};

// Each becomes the greater of both.
#[inline(always)]
fn raise(most: &mut DirLengths, now: DirLengths)
    ensures { most.new ≡ raised most.old now }
{
    most.down = most.down.max(now.down);
    most.requests = most.requests.max(now.requests);
    most.replies = most.replies.max(now.replies);
    most.parking = most.parking.max(now.parking);
}

#[inline(always)]
fn raise_leaf(most: &mut LeafLengths, now: LeafLengths)
    ensures { most.new ≡ leaf_raised most.old now }
{
    most.replies = most.replies.max(now.replies);
    most.buffer = most.buffer.max(now.buffer);
}

fn look_in<const WORDS: usize, C: Subtree<WORDS>>(
    leaf_most: &mut Vec<LeafLengths>,
    machine: &Machine<WORDS, C>,
    leaf: LeafNo,
)
    requires { is_part (leaf_of_number leaf) machine.now.machine ≡ true }
    ensures { leaf_most.new.items ≡ seen_in machine.now.machine leaf leaf_most.old.items }
{
    let now = machine.leaf_lengths(leaf);
    if let Some(most) = leaf_most.get_mut(leaf.0 as usize) {
        raise_leaf(most, now);
    }
}

fn look_over<const WORDS: usize, C: Subtree<WORDS>>(
    most: &mut Vec<DirLengths>,
    machine: &Machine<WORDS, C>,
    bus: BusNo,
)
    requires { is_part (bus_of_number bus) machine.now.machine ≡ true }
    ensures { most.new.items ≡ seen_over machine.now.machine bus most.old.items }
{
    let now = machine.list_lengths(bus);
    if let Some(most) = most.get_mut(bus.0 as usize) {
        raise(most, now);
    }
}

// The lists over a bus and those of its children.
fn look_around<const WORDS: usize, C: Subtree<WORDS>>(
    most: &mut Vec<DirLengths>,
    leaf_most: &mut Vec<LeafLengths>,
    machine: &Machine<WORDS, C>,
    bus: BusNo,
)
    requires { is_part (bus_of_number bus) machine.now.machine ≡ true }
    ensures most { most.new.items
        ≡ all_over machine.now.machine (labels_of bus machine.now.machine)
        (seen_over machine.now.machine bus most.old.items) }
    ensures leaf_most { leaf_most.new.items ≡ all_in machine.now.machine (labels_of bus machine.now.machine) leaf_most.old.items }
{
    look_over(most, machine, bus);
    for child in 0..machine.children(bus) {
        match machine.child(bus, ChildNo(child)) {
            TreeChild::LeafChild(leaf) => look_in(leaf_most, machine, leaf),
            TreeChild::BusChild(below) => look_over(most, machine, below),
        }
    }
}

/// Looks at the lists that this turn may have changed.
pub(crate) fn look<const WORDS: usize, C: Subtree<WORDS>>(
    most: &mut Vec<DirLengths>,
    leaf_most: &mut Vec<LeafLengths>,
    machine: &Machine<WORDS, C>,
    turn: &Turn,
)
    requires { names_part turn.now machine.now.machine ≡ true }
    ensures most { most.new.items ≡ turn_over machine.now.machine turn.now most.old.items }
    ensures leaf_most { leaf_most.new.items ≡ turn_in machine.now.machine turn.now leaf_most.old.items }
{
    match *turn {
        Turn::Hart { hart, .. } => look_in(leaf_most, machine, LeafNo(hart.0)),
        Turn::Down { bus }
        | Turn::Request { bus, .. }
        | Turn::Reply { bus, .. }
        | Turn::Leave { bus, .. } => look_around(most, leaf_most, machine, bus),
    }
}
