//! Tests of the top.

use crate::of_ddm_types::{ChildNo, ItemId, PendingWhy, TxKind, Words};
use crate::of_item_states::{DownEntry, Parent, ParentList};
use std::test::Fail;
use top_node::TopState;

#[test]
fn note_before_an_entry(rt: HostRuntime) -> Result<(), Fail> {
    let mut top = TopState::<4>::new(rt.alloc(), 2, 1)?;
    let stamp = top.advance(None);
    assert_eq!(rt; stamp.s0, 1);
    top.push_down(DownEntry {
        kind: TxKind::ExclusiveTx,
        item: ItemId(1),
        words: Words { w: [0; 4] },
        stamp,
    });
    assert_eq!(rt; top.pending(ItemId(1)), Some(PendingWhy::InDown));
    assert!(rt; top.list_full(ParentList::Down).is_some());
    let eraser = Some(PendingWhy::UpErase(ChildNo(3)));
    top.set_note(ItemId(1), eraser);
    assert_eq!(rt; top.pending(ItemId(1)), eraser);
    top.pop_down();
    assert!(rt; top.down_get(0).is_none());
    Ok(())
}
