//! Tests of the table of items.

ghost use Rattle.std.specs.Prelude.{◌≤◌, ◌^◌, All};
ghost use Rattle.part_tests.specs.DdmTypes.ItemTable.{IsItemSize, span_end};

use crate::of_ddm_types::{ItemId, Items, MOST_ITEMS, NoMemory, Span, count_items};
use std::alloc::Global;
use std::test::Fail;

const CODE: Span = Span {
    start: 0x10000,
    bytes: 28,
    writable: false,
};

const DATA: Span = Span {
    start: 0x20000,
    bytes: 16,
    writable: true,
};

const STACK: Span = Span {
    start: 0x30000,
    bytes: 16,
    writable: true,
};

fn made(alloc: Global, spans: &[Span], item_bytes: u32) -> Result<Items, NoMemory>
    requires size { IsItemSize item_bytes }
    requires ends { All (λ span. span_end span ≤ 2 ^ 32) spans.now }
{
    let count = count_items(alloc, spans, item_bytes)?;
    if count > u64::from(MOST_ITEMS) {
        return Err(NoMemory);
    }
    Items::from_spans(alloc, spans, item_bytes)
}

#[test]
fn narrow_items(rt: HostRuntime) -> Result<(), Fail> {
    let spans = [STACK, CODE, DATA];
    assert_eq!(rt; count_items(rt.alloc(), &spans, 16)?, 4);
    let items = made(rt.alloc(), &spans, 16)?;
    assert_eq!(rt; items.len(), 4);
    assert_eq!(rt; items.address(ItemId(1)), 0x10010);
    assert!(rt; !items.writable(ItemId(1)));
    assert_eq!(rt; items.address(ItemId(2)), 0x20000);
    assert!(rt; items.writable(ItemId(2)));
    assert_eq!(rt; items.find(0x1001f), Some(ItemId(1)));
    assert_eq!(rt; items.find(0x10020), None);
    Ok(())
}

#[test]
fn wide_items(rt: HostRuntime) -> Result<(), Fail> {
    let spans = [STACK, CODE, DATA];
    assert_eq!(rt; count_items(rt.alloc(), &spans, 64)?, 3);
    let items = made(rt.alloc(), &spans, 64)?;
    assert_eq!(rt; items.len(), 3);
    assert_eq!(rt; items.find(0x2003f), Some(ItemId(1)));
    Ok(())
}

#[test]
fn shared_item(rt: HostRuntime) -> Result<(), Fail> {
    let first = Span {
        start: 0x20000,
        bytes: 4,
        writable: true,
    };
    let second = Span {
        start: 0x20008,
        bytes: 4,
        writable: false,
    };
    let items = made(rt.alloc(), &[first, second], 16)?;
    assert_eq!(rt; items.len(), 1);
    assert_eq!(rt; items.address(ItemId(0)), 0x20000);
    assert!(rt; items.writable(ItemId(0)));
    Ok(())
}
