//! Tests of what is found in a machine.

use crate::of_ddm_types::{BusNo, ItemId, LeafNo, LeafState};
use crate::one_bus::{OneBus, after_a_read, has_bus, has_leaf};
use inspector::{CopyPlace, Traffic, copies, find, state, states, traffic};
use std::alloc::Global;
use std::test::Fail;

/// The places of an item's copies.
fn places(alloc: Global, machine: &OneBus, item: u32) -> Result<Vec<CopyPlace>, Fail> {
    if item < machine.items().len() {
        Ok(copies(alloc, machine, ItemId(item))?)
    } else {
        Err(Fail::from("an item of another machine"))
    }
}

/// The place of an item's found copy, and its first word.
fn found(machine: &OneBus, item: u32) -> Option<(CopyPlace, u32)> {
    if item < machine.items().len() {
        let copy = find(machine, ItemId(item));
        Some((copy.at, copy.words.w[0]))
    } else {
        None
    }
}

/// What a bus has granted.
fn granted(machine: &OneBus, bus: u32) -> Option<Traffic> {
    let bus = BusNo(bus);
    if has_bus(machine, bus) {
        Some(traffic(machine, bus))
    } else {
        None
    }
}

/// The state of a leaf's entry of an item.
fn state_at(machine: &OneBus, item: u32, leaf: u32) -> Option<LeafState> {
    let leaf = LeafNo(leaf);
    if has_leaf(machine, leaf) {
        state(machine, ItemId(item), leaf)
    } else {
        None
    }
}

/// Where the item is that hart 0 read from leaf 1.
const READ_COPIES: [CopyPlace; 2] = [
    CopyPlace::LeafWay {
        leaf: LeafNo(0),
        way: 1,
    },
    CopyPlace::LeafWay {
        leaf: LeafNo(1),
        way: 0,
    },
];

/// The states of an item that leaf 0 alone has.
const OWN_STATES: [Option<LeafState>; 2] = [Some(LeafState::Exclusive), None];

/// The places of the read item's copies.
fn read_places(alloc: Global) -> Result<Vec<CopyPlace>, Fail> {
    let machine = after_a_read(alloc)?;
    places(alloc, &machine, 1)
}

#[test]
fn copies_in_two_leaves(rt: HostRuntime) -> Result<(), Fail> {
    let places = read_places(rt.alloc())?;
    assert_eq!(rt; places.as_slice(), READ_COPIES.as_slice());
    Ok(())
}

#[test]
fn first_copy(rt: HostRuntime) -> Result<(), Fail> {
    let machine = after_a_read(rt.alloc())?;
    assert_eq!(rt; found(&machine, 1), Some((READ_COPIES[0], 5)));
    assert_eq!(rt; state_at(&machine, 1, 1), Some(LeafState::Shared));
    Ok(())
}

/// The states at the leaves of the code's item.
fn code_states(alloc: Global) -> Result<Vec<Option<LeafState>>, Fail> {
    let machine = after_a_read(alloc)?;
    Ok(states(alloc, &machine, ItemId(0))?)
}

#[test]
fn states_at_leaves(rt: HostRuntime) -> Result<(), Fail> {
    let states = code_states(rt.alloc())?;
    assert_eq!(rt; states.as_slice(), OWN_STATES.as_slice());
    Ok(())
}

/// What the bus has granted once an item was read.
const READ_TRAFFIC: Traffic = Traffic {
    reads: 1,
    copies: 1,
    erases: 0,
    exclusives: 0,
    outs: 0,
    injects: 0,
};

#[test]
fn granted_on_a_bus(rt: HostRuntime) -> Result<(), Fail> {
    let machine = after_a_read(rt.alloc())?;
    assert_eq!(rt; granted(&machine, 0), Some(READ_TRAFFIC));
    Ok(())
}
