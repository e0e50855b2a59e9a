//! Tests of lists of transactions.

use crate::of_ddm_types::{ItemId, Stamp, TxKind, Words};
use crate::of_item_states::DownEntry;
use crate::of_tx_queue::Queue;
use std::process::Abort;
use std::test::Fail;

fn check_first(rt: &impl Abort, queue: &Queue<(TxKind, ItemId)>, kind: TxKind, item: u32) {
    let first = queue.first().expect(rt, "a first entry");
    assert!(rt; first.0 == kind);
    assert_eq!(rt; first.1, ItemId(item));
}

#[test]
fn requests_in_order(rt: HostRuntime) -> Result<(), Fail> {
    let mut queue = Queue::<(TxKind, ItemId)>::new(rt.alloc(), 3, 8)?;
    assert!(rt; queue.first().is_none());
    assert!(rt; queue.push((TxKind::ReadTx, ItemId(5))).is_ok());
    assert!(rt; queue.push((TxKind::EraseTx, ItemId(5))).is_ok());
    assert!(rt; queue.push((TxKind::ReadTx, ItemId(2))).is_ok());
    assert!(rt; queue.full());
    assert!(rt; queue.push((TxKind::ReadTx, ItemId(1))).is_err());
    assert_eq!(rt; queue.len(), 3);
    assert!(rt; !queue.remove_request(TxKind::EraseTx, ItemId(2)));
    assert!(rt; queue.remove_request(TxKind::EraseTx, ItemId(5)));
    check_first(&rt, &queue, TxKind::ReadTx, 5);
    assert!(rt; queue.pop().is_some());
    assert!(rt; !queue.holds_item(ItemId(5)));
    assert!(rt; queue.holds_item(ItemId(2)));
    check_first(&rt, &queue, TxKind::ReadTx, 2);
    assert!(rt; queue.get(1).is_none());
    assert_eq!(rt; queue.counts().len(), 8);
    assert_eq!(rt; queue.counts()[2], 1);
    assert_eq!(rt; queue.ring().len(), 1);
    Ok(())
}

#[test]
fn entries_with_words(rt: HostRuntime) -> Result<(), Fail> {
    let mut down = Queue::<DownEntry<4>>::new(rt.alloc(), 2, 4)?;
    let entry = DownEntry {
        kind: TxKind::DataTx,
        item: ItemId(3),
        words: Words { w: [1, 2, 3, 4] },
        stamp: Stamp::zero(),
    };
    assert!(rt; down.push(entry).is_ok());
    assert!(rt; down.holds_item(ItemId(3)));
    let mut replies = Queue::<(ItemId, Words<4>)>::new(rt.alloc(), 1, 4)?;
    assert!(rt; replies.push((ItemId(0), Words { w: [1, 2, 3, 4] })).is_ok());
    assert!(rt; replies.full());
    assert!(rt; replies.pop().is_some());
    assert!(rt; !replies.holds_item(ItemId(0)));
    Ok(())
}
