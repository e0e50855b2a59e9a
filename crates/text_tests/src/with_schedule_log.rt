//! Tests of schedules and seeds.

use crate::of_ddm_types::{BusNo, ChildNo, HartNo, Turn};
use crate::of_tree_config::{Shape, read_tree};
use schedule_log::{
    FeedError, ScheduleReader, ScheduleRefusal, SeededTurns, seeded, write_schedule,
};
use std::alloc::Global;
use std::process::Abort;
use std::test::Fail;

// One bus with two leaves.
const TWO_LEAVES: &str =
    "shape = \"(LL)\"\nways = 1\nsets = 1\nbuffer = 1\nparking = 1\ndown = 16\nrequests = 16\n\
    replies = 16\nstack_base = 196608\nstack_bytes = 0\n";

// The schedule of the seed 42 with three turns, for that tree.
const SEEDED: &str = "g 0 r 1\nh 1 73\ng 0 q 1\nend\n";

fn two_leaves(rt: &impl Abort, alloc: Global) -> Shape {
    read_tree(alloc, TWO_LEAVES.as_bytes())
        .ok()
        .expect(rt, "a tree")
        .nodes
}

#[test]
fn seeds(rt: HostRuntime) -> Result<(), Fail> {
    let shape = two_leaves(&rt, rt.alloc());
    let turns = seeded(rt.alloc(), 42, 3, &shape)?;
    let text = write_schedule(rt.alloc(), &turns)?;
    assert_eq!(rt; text.as_slice(), SEEDED.as_bytes());
    Ok(())
}

#[test]
fn another_seed_in_blocks(rt: HostRuntime) -> Result<(), Fail> {
    let shape = two_leaves(&rt, rt.alloc());
    let mut seeds = SeededTurns::new(rt.alloc(), &shape)?;
    let mut block = [Turn::Down { bus: BusNo(0) }; 2];
    seeds.begin(7, 100);
    assert_eq!(rt; seeds.next_block(&mut block), 2);
    seeds.begin(42, 3);
    let mut turns = Vec::new(rt.alloc());
    for size in [2, 1, 0] {
        assert_eq!(rt; seeds.next_block(&mut block), size);
        turns.extend_from_slice(&block[..size])?;
    }
    let text = write_schedule(rt.alloc(), &turns)?;
    assert_eq!(rt; text.as_slice(), SEEDED.as_bytes());
    Ok(())
}

#[test]
fn writes_each_turn(rt: HostRuntime) -> Result<(), Fail> {
    let turns = [
        Turn::Hart {
            hart: HartNo(0),
            victim: 255,
        },
        Turn::Down { bus: BusNo(3) },
        Turn::Leave {
            bus: BusNo(1),
            child: ChildNo(4_294_967_295),
            choice: 15,
        },
    ];
    let text = write_schedule(rt.alloc(), &turns)?;
    assert_eq!(rt;
        text.as_slice(),
        b"h 0 255\ng 3 d\ng 1 l 4294967295 15\nend\n".as_slice()
    );
    Ok(())
}

#[test]
fn reads_in_pieces(rt: HostRuntime) -> Result<(), Fail> {
    let shape = two_leaves(&rt, rt.alloc());
    let mut reader = ScheduleReader::new(rt.alloc())?;
    let mut turns = Vec::new(rt.alloc());
    for byte in SEEDED.as_bytes() {
        assert!(rt; reader.feed(&shape, &[*byte], &mut turns).is_ok());
    }
    assert!(rt; reader.finish().is_ok());
    let text = write_schedule(rt.alloc(), &turns)?;
    assert_eq!(rt; text.as_slice(), SEEDED.as_bytes());
    Ok(())
}

#[test]
fn refuses_lines(rt: HostRuntime) -> Result<(), Fail> {
    let rows = [
        ("h 0 0\nh 2 0\nend\n", 2, ScheduleRefusal::NoSuchHart),
        ("g 1 d\n", 1, ScheduleRefusal::NoSuchBus),
        ("g 0 q 2\n", 1, ScheduleRefusal::NoSuchChild),
        ("h 0 256\n", 1, ScheduleRefusal::BadTurn),
        ("0123456789012345678901234", 1, ScheduleRefusal::BadTurn),
        ("end\nx", 2, ScheduleRefusal::AfterEnd),
    ];
    let shape = two_leaves(&rt, rt.alloc());
    for (text, line, refusal) in rows {
        let mut reader = ScheduleReader::new(rt.alloc())?;
        let mut turns = Vec::new(rt.alloc());
        let refused = Err(FeedError::Refused(line, refusal));
        assert_eq!(rt; reader.feed(&shape, text.as_bytes(), &mut turns), refused);
        assert_eq!(rt; reader.feed(&shape, b"end\n", &mut turns), refused);
        assert_eq!(rt; reader.finish(), Err((line, refusal)));
    }
    Ok(())
}

#[test]
fn refuses_no_end(rt: HostRuntime) -> Result<(), Fail> {
    let shape = two_leaves(&rt, rt.alloc());
    let mut reader = ScheduleReader::new(rt.alloc())?;
    let mut turns = Vec::new(rt.alloc());
    assert!(rt; reader.feed(&shape, b"h 0 0\nend", &mut turns).is_ok());
    assert_eq!(rt; reader.finish(), Err((2, ScheduleRefusal::NoEnd)));
    Ok(())
}

#[test]
fn goes_on_behind_others(rt: HostRuntime) -> Result<(), Fail> {
    let shape = two_leaves(&rt, rt.alloc());
    let mut reader = ScheduleReader::after(rt.alloc(), 1_048_574)?;
    let mut turns = Vec::new(rt.alloc());
    assert!(rt; reader.feed(&shape, b"h 0 0\nh 1 0\n", &mut turns).is_ok());
    assert_eq!(rt; turns.len(), 2);
    assert_eq!(rt;
        reader.feed(&shape, b"h 0 0\nend\n", &mut turns),
        Err(FeedError::Refused(3, ScheduleRefusal::TooManyTurns))
    );
    Ok(())
}

#[test]
fn ends_behind_the_last_turn(rt: HostRuntime) -> Result<(), Fail> {
    let shape = two_leaves(&rt, rt.alloc());
    let mut reader = ScheduleReader::after(rt.alloc(), 1_048_576)?;
    let mut turns = Vec::new(rt.alloc());
    assert!(rt; reader.feed(&shape, b"end\n", &mut turns).is_ok());
    assert!(rt; reader.finish().is_ok());
    Ok(())
}
