//! Tests of reports, traces and fault lines.

use report::of_ddm_outside::MemorySink;
use report::of_ddm_types::{
    BusNo, ChildNo, Effect, HaltCause, HartNo, ItemId, Key, LogEntry, Op, Place, Turn, TurnAnswer,
    TxKind,
};
use report::of_tree_model::Traffic;
use report::{
    TracePieces, memory_line, push_bus_line, push_hart_line, push_op_line, push_trace, trace_text,
    usage_line, write_all,
};
use std::test::Fail;

#[test]
fn lines_of_a_report(rt: HostRuntime) -> Result<(), Fail> {
    let op = Op {
        key: Key::zero().counted(2),
        hart: HartNo(0),
        pc: 0x10008,
        effect: Effect::Store {
            address: 0x20000,
            before: 0,
            after: 7,
        },
    };
    let mut out = Vec::new(rt.alloc());
    push_op_line(&mut out, 1, op)?;
    assert_eq!(rt;
        out.as_slice(),
        b"op 0 0.0.2 00010008 store 00020000 00000000 00000007\n".as_slice()
    );

    let mut out = Vec::new(rt.alloc());
    push_hart_line(&mut out, HartNo(0), Some(HaltCause::Exit(7)), 0x10018, 6)?;
    assert_eq!(rt;
        out.as_slice(),
        b"hart 0 exit 7 pc 00010018 done 6\n".as_slice()
    );
    Ok(())
}

#[test]
fn line_of_a_bus(rt: HostRuntime) -> Result<(), Fail> {
    let traffic = Traffic {
        reads: 1,
        copies: 2,
        erases: 3,
        exclusives: 4,
        outs: 5,
        injects: 6,
    };
    let mut out = Vec::new(rt.alloc());
    push_bus_line(&mut out, BusNo(12), &traffic)?;
    assert_eq!(rt;
        out.as_slice(),
        b"bus 12 read 1 data 2 erase 3 exclusive 4 out 5 inject 6\n".as_slice()
    );
    Ok(())
}

#[test]
fn trace_of_two_turns(rt: HostRuntime) -> Result<(), Fail> {
    let turns = [
        Turn::Hart {
            hart: HartNo(1),
            victim: 3,
        },
        Turn::Request {
            bus: BusNo(0),
            child: ChildNo(1),
        },
    ];
    let answers = [
        TurnAnswer::Issued(TxKind::ReadTx, ItemId(4)),
        TurnAnswer::Granted(LogEntry {
            bus: BusNo(0),
            kind: TxKind::ReadTx,
            item: ItemId(4),
            source: Place::Child(ChildNo(1)),
            taker: Place::Readers,
        }),
    ];
    let text = trace_text(rt.alloc(), &turns, &answers)?;
    assert_eq!(rt;
        text.as_slice(),
        b"t 0 h 1 3 issued read 4\nt 1 g 0 q 1 granted read 4 from child 1 to readers\n".as_slice()
    );
    Ok(())
}

#[test]
fn trace_in_pieces(rt: HostRuntime) -> Result<(), Fail> {
    let turns = [Turn::Down { bus: BusNo(7) }; 100];
    let answers = [TurnAnswer::Empty; 100];
    let mut pieces = TracePieces::new(&turns, &answers);
    let mut into = [0; 1_024];
    let mut joined = Vec::new(rt.alloc());
    for _ in 0..4 {
        let n = pieces.next_piece(&mut into);
        joined.extend_from_slice(&into[..n])?;
    }
    assert_eq!(rt; pieces.next_piece(&mut into), 0);
    let text = trace_text(rt.alloc(), &turns, &answers)?;
    assert_eq!(rt; joined.as_slice(), text.as_slice());
    Ok(())
}

#[test]
fn trace_in_blocks(rt: HostRuntime) -> Result<(), Fail> {
    let turns = [Turn::Down { bus: BusNo(7) }; 100];
    let answers = [TurnAnswer::Empty; 100];
    let (all_turns, all_answers) = (&turns[..], &answers[..]);
    let mut joined = Vec::new(rt.alloc());
    push_trace(&mut joined, 0, &all_turns[..37], &all_answers[..37])?;
    push_trace(&mut joined, 37, &all_turns[37..], &all_answers[37..])?;
    let text = trace_text(rt.alloc(), &turns, &answers)?;
    assert_eq!(rt; joined.as_slice(), text.as_slice());
    Ok(())
}

#[test]
fn writes_in_parts(rt: HostRuntime) -> Result<(), Fail> {
    let text = b"hart 0 exit 7 pc 00010018 done 6\n";
    let never = Vec::new(rt.alloc());
    let mut sink = MemorySink::new(rt.alloc(), 64, 10, never)?;
    assert!(rt; write_all(&mut sink, text).is_ok());
    assert_eq!(rt; sink.bytes(), text.as_slice());

    let third = vec![in rt.alloc(); 2]?;
    let mut sink = MemorySink::new(rt.alloc(), 64, 10, third)?;
    assert!(rt; write_all(&mut sink, text).is_err());
    assert_eq!(rt; sink.bytes(), b"hart 0 exit 7 pc 000".as_slice());
    Ok(())
}

#[test]
fn lines_of_faults(rt: HostRuntime) {
    assert_eq!(rt;
        usage_line(3).as_slice(),
        b"ddm: usage: word 3\n".as_slice()
    );
    assert_eq!(rt; memory_line().as_slice(), b"ddm: no memory\n".as_slice());
}
