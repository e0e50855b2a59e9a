//! Tests of what names an item.

use crate::of_ddm_types::{ItemId, Stamp, TxKind, Words};
use crate::of_item_states::{DownEntry, Named};

fn named<T: Named>(entry: &T) -> u32 {
    entry.item().0
}

#[test]
fn names(rt: HostRuntime) {
    let words = Words::<4> { w: [1, 2, 3, 4] };
    let entry = DownEntry {
        kind: TxKind::DataTx,
        item: ItemId(7),
        words,
        stamp: Stamp::zero(),
    };
    let kept = entry;
    assert_eq!(rt; named(&kept), 7);
    assert_eq!(rt; named(&(TxKind::ReadTx, ItemId(3))), 3);
    assert_eq!(rt; named(&(ItemId(5), Words::<4> { w: [1, 2, 3, 4] })), 5);
}
