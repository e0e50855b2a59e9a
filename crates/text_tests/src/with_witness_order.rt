//! Tests of operations put in order.

use crate::of_ddm_types::{ChildNo, Effect, HartNo, Key, NoMemory, Op, Stamp};
use operation_list::Operations;
use std::alloc::Global;
use std::test::Fail;
use witness_order::{Ordered, Witness};

// An operation of a hart in a tree of two levels of buses.
fn op(hart: u32, numbers: [u32; 5]) -> Op {
    let stamp = Stamp::zero()
        .at_level(0, numbers[0])
        .at_level(1, numbers[2]);
    let key = Key::zero()
        .at_level(0, stamp, ChildNo(numbers[1]))
        .at_level(1, stamp, ChildNo(numbers[3]));
    Op {
        key: key.counted(numbers[4]),
        hart: HartNo(hart),
        pc: 0x0001_0000,
        effect: Effect::Plain,
    }
}

// These operations as a machine keeps them.
fn list_of(alloc: Global, ops: &[Op]) -> Result<Operations, NoMemory> {
    let mut list = Operations::new(alloc);
    for op in ops {
        list.add(op)?;
    }
    Ok(list)
}

#[test]
fn sorts_from_the_left(rt: HostRuntime) -> Result<(), Fail> {
    let came = [
        op(0, [1, 0, 0, 0, 0]),
        op(3, [0, 1, 2, 0, 8]),
        op(2, [0, 1, 2, 1, 0]),
        op(3, [0, 1, 2, 0, 7]),
    ];
    let ascending = [
        op(3, [0, 1, 2, 0, 7]),
        op(3, [0, 1, 2, 0, 8]),
        op(2, [0, 1, 2, 1, 0]),
        op(0, [1, 0, 0, 0, 0]),
    ];
    let witness = Witness::new(rt.alloc(), &came)?;
    assert_eq!(rt; witness.sorted().as_slice(), ascending.as_slice());
    Ok(())
}

#[test]
fn gives_in_order(rt: HostRuntime) -> Result<(), Fail> {
    let came = [
        op(0, [1, 0, 0, 0, 0]),
        op(3, [0, 1, 2, 0, 8]),
        op(2, [0, 1, 2, 1, 0]),
    ];
    let list = list_of(rt.alloc(), &came)?;
    let ordered = Ordered::new(rt.alloc(), &list)?;
    assert_eq!(rt; ordered.len(), 3);
    assert_eq!(rt; ordered.get(0), op(3, [0, 1, 2, 0, 8]));
    assert_eq!(rt; ordered.get(1), op(2, [0, 1, 2, 1, 0]));
    assert_eq!(rt; ordered.get(2), op(0, [1, 0, 0, 0, 0]));
    Ok(())
}

#[test]
fn gives_what_ascends(rt: HostRuntime) -> Result<(), Fail> {
    let came = [op(3, [0, 1, 2, 0, 8]), op(2, [0, 1, 2, 1, 0])];
    let list = list_of(rt.alloc(), &came)?;
    let ordered = Ordered::new(rt.alloc(), &list)?;
    assert_eq!(rt; ordered.len(), 2);
    assert_eq!(rt; ordered.get(1), op(2, [0, 1, 2, 1, 0]));
    let lent = Ordered::of(&came);
    assert_eq!(rt; lent.get(1), op(2, [0, 1, 2, 1, 0]));
    Ok(())
}

#[test]
fn sorts_nothing(rt: HostRuntime) -> Result<(), Fail> {
    let witness = Witness::new(rt.alloc(), &[])?;
    assert!(rt; witness.sorted().is_empty());
    Ok(())
}
