//! Tests of lists of operations.

use crate::of_ddm_types::{ChildNo, Effect, HartNo, Key, Op, Stamp};
use operation_list::Operations;
use std::test::Fail;

// An operation of a hart that is leaf 0 or 1 below bus 0, behind so many grants and so many of its own operations.
fn op(hart: u32, grants: u32, own: u32) -> Op {
    let stamp = Stamp::zero().at_level(0, grants);
    let key = Key::zero().at_level(0, stamp, ChildNo(hart));
    Op {
        key: key.counted(own),
        hart: HartNo(hart),
        pc: 0x0001_0000,
        effect: Effect::Plain,
    }
}

#[test]
fn given_as_they_came(rt: HostRuntime) -> Result<(), Fail> {
    let came = [
        op(0, 0, 0),
        op(1, 0, 0),
        op(0, 0, 1),
        op(65, 0, 0),
        op(1, 3, 1),
        op(0, 3, 2),
        op(1, 0, 2),
    ];
    let mut list = Operations::new(rt.alloc());
    list.reserve(2)?;
    list.push(&came[0]);
    list.push(&came[1]);
    for place in 2..came.len() {
        list.add(&came[place])?;
    }
    assert_eq!(rt; list.len(), came.len());
    for place in 0..came.len() {
        assert_eq!(rt; list.get(place), came[place], "place {place}");
    }
    Ok(())
}

#[test]
fn copied_and_forgotten(rt: HostRuntime) -> Result<(), Fail> {
    let mut list = Operations::new(rt.alloc());
    list.reserve(3)?;
    list.push(&op(0, 1, 0));
    let mut other = Operations::new(rt.alloc());
    other.add(&op(1, 0, 0))?;
    other.add(&op(1, 2, 1))?;
    list.copy_from(&other);
    assert_eq!(rt; list.len(), 2);
    assert_eq!(rt; list.get(1), op(1, 2, 1));
    let mut ops = list.iter();
    assert_eq!(rt; ops.next(), Some(op(1, 0, 0)));
    assert_eq!(rt; ops.next(), Some(op(1, 2, 1)));
    assert_eq!(rt; ops.next(), None);
    list.push(&op(0, 2, 0));
    assert_eq!(rt; list.get(2), op(0, 2, 0));
    list.clear();
    assert_eq!(rt; list.len(), 0);
    Ok(())
}
