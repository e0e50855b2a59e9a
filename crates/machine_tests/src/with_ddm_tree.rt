//! Tests of a machine: its turns, and what can be asked of it.

use crate::of_ddm_types::{
    BusNo, ChildNo, Effect, HartNo, Hold, ItemId, Key, LeafNo, LogEntry, Op, Place, Stamp,
    TurnAnswer, TxKind,
};
use crate::one_bus::{
    LOAD_AND_EXIT, OneBus, READ, after_a_read, answers, has_bus, has_child, has_leaf, one_bus,
};
use ddm_tree::TreeChild;
use std::alloc::Global;
use std::test::Fail;

/// A key in a tree of one bus.
fn key(stamp: u32, child: u32, count: u32) -> Key {
    Key::zero()
        .at_level(0, Stamp::zero().at_level(0, stamp), ChildNo(child))
        .counted(count)
}

/// A grant on bus 0 for item 1.
fn granted(kind: TxKind, source: u32, taker: u32) -> TurnAnswer {
    TurnAnswer::Granted(LogEntry {
        bus: BusNo(0),
        kind,
        item: ItemId(1),
        source: Place::Child(ChildNo(source)),
        taker: Place::Child(ChildNo(taker)),
    })
}

fn completed(key: Key, pc: u32, effect: Effect) -> TurnAnswer {
    TurnAnswer::Retired(Op {
        key,
        hart: HartNo(0),
        pc,
        effect,
    })
}

/// What the turns of the read are answered.
fn read_answers() -> [TurnAnswer; 5] {
    let load = Effect::Load {
        address: 0x20000,
        word: 5,
    };
    [
        completed(key(0, 0, 0), 0x10000, Effect::Plain),
        TurnAnswer::Issued(TxKind::ReadTx, ItemId(1)),
        granted(TxKind::ReadTx, 0, 1),
        granted(TxKind::DataTx, 1, 0),
        completed(key(2, 0, 1), 0x10004, load),
    ]
}

/// What they are answered by the machine of two leaves.
fn given_answers(alloc: Global) -> Result<Vec<TurnAnswer>, Fail> {
    let mut machine = one_bus(alloc, "(LL)", 0, &LOAD_AND_EXIT)?;
    answers(alloc, &mut machine, &READ)
}

#[test]
fn turns_of_a_read(rt: HostRuntime) -> Result<(), Fail> {
    let answers = given_answers(rt.alloc())?;
    assert_eq!(rt; answers.as_slice(), read_answers().as_slice());
    Ok(())
}

/// The key of this moment at a leaf.
fn now(machine: &OneBus, leaf: u32) -> Option<Key> {
    let leaf = LeafNo(leaf);
    if has_leaf(machine, leaf) {
        Some(machine.now(leaf))
    } else {
        None
    }
}

/// A child of bus 0, and what it holds of an item.
fn child(machine: &OneBus, child: u32, item: u32) -> Option<(TreeChild, Hold)> {
    let (bus, child) = (BusNo(0), ChildNo(child));
    if has_child(machine, bus, child) && item < machine.items().len() {
        let held = machine.child_hold(bus, child, ItemId(item));
        Some((machine.child(bus, child), held))
    } else {
        None
    }
}

/// A leaf as a child, and what it holds.
fn leaf(number: u32, hold: Hold) -> Option<(TreeChild, Hold)> {
    Some((TreeChild::LeafChild(LeafNo(number)), hold))
}

/// How many transactions of a kind a bus has granted.
fn grants(machine: &OneBus, bus: u32, kind: TxKind) -> Option<u32> {
    let bus = BusNo(bus);
    if has_bus(machine, bus) {
        Some(machine.granted(bus, kind))
    } else {
        None
    }
}

#[test]
fn moments_after_a_read(rt: HostRuntime) -> Result<(), Fail> {
    let machine = after_a_read(rt.alloc())?;
    assert_eq!(rt; now(&machine, 0), Some(key(2, 0, 2)));
    assert_eq!(rt; now(&machine, 1), Some(key(2, 1, 0)));
    Ok(())
}

#[test]
fn children_after_a_read(rt: HostRuntime) -> Result<(), Fail> {
    let machine = after_a_read(rt.alloc())?;
    assert_eq!(rt; child(&machine, 0, 0), leaf(0, Hold::Exclusive));
    assert_eq!(rt; child(&machine, 1, 0), leaf(1, Hold::Invalid));
    assert_eq!(rt; child(&machine, 1, 1), leaf(1, Hold::Shared));
    assert_eq!(rt; child(&machine, 2, 1), None);
    Ok(())
}

#[test]
fn grants_after_a_read(rt: HostRuntime) -> Result<(), Fail> {
    let machine = after_a_read(rt.alloc())?;
    assert_eq!(rt; grants(&machine, 0, TxKind::DataTx), Some(1));
    assert_eq!(rt; grants(&machine, 0, TxKind::EraseTx), Some(0));
    Ok(())
}
