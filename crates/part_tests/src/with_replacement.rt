//! Tests of buffer and parking.

use crate::of_ddm_types::{ItemId, LeafState, Words};
use crate::of_replacement::{Buffer, Full, Parking};
use std::process::Abort;
use std::test::Fail;

fn words(first: u32) -> Words<4> {
    Words {
        w: [first, 0, 0, 0],
    }
}

fn check_word(rt: &impl Abort, words: Option<Words<4>>, first: u32) {
    let words = words.expect(rt, "words");
    assert_eq!(rt; words.w[0], first);
}

fn check_place(rt: &impl Abort, buffer: &Buffer<4>, item: u32, place: u32, state: LeafState) {
    let (found, is) = buffer.find(ItemId(item)).expect(rt, "an entry");
    assert_eq!(rt; found, place);
    assert_eq!(rt; is, state);
}

#[test]
fn buffer_in_order_of_arrival(rt: HostRuntime) -> Result<(), Fail> {
    let mut buffer = Buffer::<4>::new(rt.alloc(), 3)?;
    assert_eq!(rt; buffer.ready(5), None);
    assert_eq!(rt;
        buffer.put(ItemId(7), LeafState::Exclusive, words(70)),
        Ok(())
    );
    assert!(rt; buffer.find(ItemId(8)).is_none());
    assert_eq!(rt;
        buffer.put(ItemId(8), LeafState::Waiting, words(80)),
        Ok(())
    );
    assert!(rt; buffer.find(ItemId(9)).is_none());
    assert_eq!(rt; buffer.put(ItemId(9), LeafState::Shared, words(90)), Ok(()));
    assert!(rt; buffer.find(ItemId(10)).is_none());
    assert_eq!(rt;
        buffer.put(ItemId(10), LeafState::Shared, words(0)),
        Err(Full)
    );
    check_place(&rt, &buffer, 9, 2, LeafState::Shared);
    check_word(&rt, buffer.words(ItemId(7)), 70);
    assert_eq!(rt; buffer.ready(200), Some(ItemId(7)));
    assert_eq!(rt; buffer.ready(201), Some(ItemId(9)));
    assert!(rt; buffer.remove(ItemId(10)).is_none());
    assert!(rt; buffer.remove(ItemId(7)).is_some());
    check_place(&rt, &buffer, 8, 0, LeafState::Waiting);
    check_place(&rt, &buffer, 9, 1, LeafState::Shared);
    assert!(rt; buffer.get(2).is_none());
    Ok(())
}

#[test]
fn parking_keeps_reserved_places(rt: HostRuntime) -> Result<(), Fail> {
    let mut parking = Parking::<4>::new(rt.alloc(), 2)?;
    assert_eq!(rt; parking.ready(0), None);
    assert_eq!(rt; parking.reserve(), Ok(()));
    assert_eq!(rt; parking.put(ItemId(3), words(30)), Ok(()));
    assert!(rt; parking.find(ItemId(4)).is_none());
    assert_eq!(rt; parking.put(ItemId(4), words(40)), Err(Full));
    assert_eq!(rt; parking.reserve(), Err(Full));
    Ok(())
}

/// Reserves two places, gives one of them back, and puts the copy in the other.
fn put_in_reserved(parking: &mut Parking<4>, item: u32) -> bool {
    if parking.reserve().is_err() || parking.reserve().is_err() {
        return false;
    }
    parking.release();
    if parking.words(ItemId(item)).is_some() {
        return false;
    }
    parking.put_reserved(ItemId(item), words(item));
    true
}

#[test]
fn parking_uses_reserved_places(rt: HostRuntime) -> Result<(), Fail> {
    let mut parking = Parking::<4>::new(rt.alloc(), 3)?;
    assert!(rt; put_in_reserved(&mut parking, 3));
    assert!(rt; put_in_reserved(&mut parking, 5));
    assert!(rt; !put_in_reserved(&mut parking, 7));
    assert_eq!(rt; parking.ready(3), Some(ItemId(5)));
    assert_eq!(rt; parking.reserve(), Err(Full));
    Ok(())
}

#[test]
fn words_of_entries_and_copies(rt: HostRuntime) -> Result<(), Fail> {
    let mut buffer = Buffer::<4>::new(rt.alloc(), 3)?;
    assert!(rt; buffer.find(ItemId(7)).is_none());
    assert!(rt;
        buffer
            .put(ItemId(7), LeafState::Exclusive, words(70))
            .is_ok()
    );
    assert!(rt; buffer.find(ItemId(8)).is_none());
    assert!(rt;
        buffer
            .put(ItemId(8), LeafState::ReadingWaiting, words(0))
            .is_ok()
    );
    let mut parking = Parking::<4>::new(rt.alloc(), 2)?;
    assert!(rt; parking.find(ItemId(9)).is_none());
    assert!(rt; parking.put(ItemId(9), words(90)).is_ok());
    let mut out = Vec::new(rt.alloc());
    buffer.write(&mut out)?;
    parking.write(&mut out)?;
    assert_eq!(rt;
        out.as_slice(),
        [2, 7, 2, 70, 0, 0, 0, 8, 5, 0, 0, 0, 0, 1, 9, 90, 0, 0, 0].as_slice()
    );
    Ok(())
}
