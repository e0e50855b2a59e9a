//! Tests of a directory.

ghost use Rattle.std.specs.Prelude.{◌<◌, ◌↔◌, IsTrue, length};

use crate::of_ddm_types::{
    BusNo, ChildNo, ItemId, NoMemory, PendingWhy, Stamp, TreeSizes, TxKind, Words,
};
use crate::of_directory::DirState;
use crate::of_item_states::Parent;
use std::alloc::Global;
use std::test::Fail;

/// A directory of four items over bus 1, with one parking place.
fn new_directory(alloc: Global) -> Result<DirState<4>, NoMemory> {
    let sizes = TreeSizes {
        sets: 1,
        buffer: 1,
        parking: 1,
        down: 2,
        requests: 2,
        replies: 2,
    };
    DirState::new(alloc, BusNo(1), 1, 4, &sizes)
}

fn there_is(dir: &DirState<4>, item: ItemId) -> bool
    ensures { IsTrue result ↔ item < length dir.now.items }
{
    (item.0 as usize) < dir.packed().len()
}

/// The bus above tells it something of the item, where there is a place for it.
fn tell(dir: &mut DirState<4>, kind: TxKind, item: ItemId, first: u32) -> bool {
    if !there_is(dir, item) || dir.up_full_for(kind, item).is_some() {
        return false;
    }
    let words = Words {
        w: [first, 0, 0, 0],
    };
    let stamp = Stamp::zero().at_level(0, first);
    match kind {
        TxKind::ReadTx => dir.up_answer(item, stamp),
        TxKind::DataTx => dir.up_take_data(item, words, stamp),
        TxKind::EraseTx => dir.up_lose(item, stamp),
        TxKind::ExclusiveTx => dir.up_take_exclusive(item, stamp),
        TxKind::InjectTx => {
            if !dir.up_reader_has_place(item) {
                return false;
            }
            dir.up_take_inject(item, words, stamp);
        }
        TxKind::OutTx => return false,
    }
    true
}

/// A Down turn's part of the directory: the stamp of the bus below after it.
fn take_first(dir: &mut DirState<4>) -> Option<Stamp> {
    let entry = dir.first_down()?;
    if dir.bus() == BusNo(0) || dir.count() == u32::MAX {
        return None;
    }
    let stamp = dir.advance(Some(entry.stamp));
    dir.pop_down();
    Some(stamp)
}

#[test]
fn items_as_words(rt: HostRuntime) -> Result<(), Fail> {
    let mut dir = new_directory(rt.alloc())?;
    let item = ItemId(2);
    assert!(rt; there_is(&dir, item));
    dir.set_note(item, Some(PendingWhy::Local(ChildNo(3))));
    assert!(rt; there_is(&dir, item));
    dir.join(item, ChildNo(15));
    assert!(rt; tell(&mut dir, TxKind::ReadTx, item, 1));
    assert!(rt; tell(&mut dir, TxKind::ExclusiveTx, item, 2));
    assert_eq!(rt; dir.packed().get(2).copied(), Some(0x8000_0136));
    assert_eq!(rt; dir.packed().get(1).copied(), Some(0));
    assert!(rt; !tell(&mut dir, TxKind::DataTx, ItemId(1), 3));
    Ok(())
}

#[test]
fn injects_and_their_places(rt: HostRuntime) -> Result<(), Fail> {
    let mut dir = new_directory(rt.alloc())?;
    assert!(rt; tell(&mut dir, TxKind::InjectTx, ItemId(0), 5));
    assert!(rt; dir.parking_full());
    assert!(rt; !tell(&mut dir, TxKind::InjectTx, ItemId(1), 6));
    assert!(rt; there_is(&dir, ItemId(1)));
    dir.set_note(ItemId(1), Some(PendingWhy::UpRead(ChildNo(0))));
    assert!(rt; tell(&mut dir, TxKind::InjectTx, ItemId(1), 6));
    let stamp = take_first(&mut dir).expect(&rt, "an entry");
    assert_eq!(rt; stamp.s0, 5);
    assert_eq!(rt; stamp.s1, 1);
    assert_eq!(rt; dir.epoch().s0, 5);
    dir.release_place();
    assert!(rt; !dir.parking_full());
    assert!(rt; there_is(&dir, ItemId(1)));
    assert!(rt; dir.up_reader_has_place(ItemId(1)));
    Ok(())
}
