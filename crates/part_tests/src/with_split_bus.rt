//! Tests of turns of a bus.

ghost use Rattle.std.specs.Prelude.{◌≡◌, IfOk, length};

use crate::of_ddm_types::{ChildNo, LeafNo, NoMemory, Stamp, Start, TreeSizes, TurnAnswer};
use leaf_protocol::Leaf;
use split_bus::{BusTurn, grant};
use std::alloc::Global;
use std::test::Fail;
use top_node::TopState;

/// A leaf of three items.
fn leaf(alloc: Global) -> Result<Leaf<2, 4>, NoMemory>
    ensures { IfOk result (λ leaf. length leaf.ways ≡ 3) }
{
    let config = TreeSizes {
        sets: 1,
        buffer: 1,
        parking: 0,
        down: 0,
        requests: 0,
        replies: 1,
    };
    let start = Start {
        entry: 0x10000,
        harts: 1,
        stack_base: 0x8000,
        stack_bytes: 16,
    };
    Leaf::new(alloc, LeafNo(0), 3, &config, start)
}

/// What is above its bus.
fn top(alloc: Global) -> Result<TopState<4>, NoMemory>
    ensures sized { IfOk result (λ top. length top.items ≡ 3) }
    ensures width { IfOk result (λ top. top.sizes.width ≡ 4) }
    ensures count { IfOk result (λ top. top.count ≡ 0) }
{
    TopState::new(alloc, 3, 1)
}

#[test]
fn nothing_is_asked(rt: HostRuntime) -> Result<(), Fail> {
    let mut top = top(rt.alloc())?;
    let mut leaves = [leaf(rt.alloc())?];
    let turn = BusTurn::Request(ChildNo(0));
    assert_eq!(rt;
        grant(&mut top, &mut leaves, Stamp::zero(), turn),
        TurnAnswer::Empty
    );
    assert!(rt; leaves[0].reply_get(0).is_none());
    Ok(())
}
