//! Schedules that are refused, each in its line.

use asked_commands::answers::{RUN, ask};
use asked_commands::files::{Files, one_leaf, schedule, store_and_load};
use std::test::Fail;

#[test]
fn lines_at_fault(rt: HostRuntime) -> Result<(), Fail> {
    let alloc = rt.alloc();
    let schedules: [(&[u8], &str); 13] = [
        (b"h 0 0\n", "line 2: no end"),
        (b"h 1 0\nend\n", "line 1: no such hart"),
        (b"h 0 00\nend\n", "line 1: bad turn"),
        (b"end\nx", "line 2: after end"),
        (b"h 0 0\nend\n\n", "line 3: after end"),
        (b"g 4294967295 d\nend\n", "line 1: no such bus"),
        (b"g 999999999 q 4294967295\nend\n", "line 1: no such bus"),
        (b"g 1000000000 q 4294967295\nend\n", "line 1: bad turn"),
        (b"g 0 q 1\nend\n", "line 1: no such child"),
        (b"h 0 256\nend\n", "line 1: bad turn"),
        (b"h  0 0\nend\n", "line 1: bad turn"),
        (b"h 0 0\r\nend\n", "line 1: bad turn"),
        (b"h 0 0\nh 0 0 ", "line 2: no end"),
    ];
    for (schedule, name) in schedules {
        let files = Files {
            tree: one_leaf().bytes(alloc)?,
            image: store_and_load(alloc)?,
            schedule: schedule.to_vec(alloc)?,
        };
        let line = format!(in alloc; "ddm: schedule {name}")?;
        assert!(rt;
            ask(alloc, RUN, &files)?.is_refusal(5, line.as_str()),
            "{line}"
        );
    }
    Ok(())
}

// Eight turns of six bytes each, and the end.
#[test]
fn cut_schedules(rt: HostRuntime) -> Result<(), Fail> {
    let alloc = rt.alloc();
    let whole = schedule(alloc, &["h 0 0"], 8)?;
    assert_eq!(rt; whole.len(), 52);
    for length in 0..52_usize {
        let files = Files {
            tree: one_leaf().bytes(alloc)?,
            image: store_and_load(alloc)?,
            schedule: whole[..length].to_vec(alloc)?,
        };
        let line = format!(in alloc; "ddm: schedule line {}: no end", length / 6 + 1)?;
        assert!(rt;
            ask(alloc, RUN, &files)?.is_refusal(5, line.as_str()),
            "{length} bytes"
        );
    }
    Ok(())
}
