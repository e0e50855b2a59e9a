//! Tests of the checker of witnesses.

use crate::of_ddm_types::Start;
use elf_load::load;
use std::test::Fail;
use witness_check::*;

/// Seven instructions at 0x10000: store 7 at 0x20000, load it back, exit with it. 16 bytes of memory at 0x20000.
const IMAGE: [u8; 144] = [
    0x7f, 0x45, 0x4c, 0x46, 1, 1, 1, 0, 0, 0, 0, 0, 0, 0, 0, 0, // identity
    2, 0, 243, 0, 1, 0, 0, 0, 0, 0, 1, 0, 52, 0, 0, 0, 0, 0, 0, 0, 0, 0, 0, 0, // to the flags
    52, 0, 32, 0, 2, 0, 0, 0, 0, 0, 0, 0, // sizes and counts
    1, 0, 0, 0, 116, 0, 0, 0, 0, 0, 1, 0, 0, 0, 1, 0, 28, 0, 0, 0, 28, 0, 0, 0, 5, 0, 0, 0, 1, 0,
    0, 0, // the code
    1, 0, 0, 0, 144, 0, 0, 0, 0, 0, 2, 0, 0, 0, 2, 0, 0, 0, 0, 0, 16, 0, 0, 0, 6, 0, 0, 0, 1, 0, 0,
    0, // the data
    0xb7, 0x02, 0x02, 0x00, 0x13, 0x03, 0x70, 0x00, 0x23, 0xa0, 0x62, 0x00, 0x83, 0xa3, 0x02, 0x00,
    0x93, 0x08, 0xd0, 0x05, 0x13, 0x85, 0x03, 0x00, 0x73, 0x00, 0x00, 0x00,
];

const ONE_HART: Start = Start {
    entry: 0x10000,
    harts: 1,
    stack_base: 0x30000,
    stack_bytes: 16,
};

const WITNESS: &str = "op 0 0.0.0 00010000 plain
op 0 0.0.1 00010004 plain
op 0 0.0.2 00010008 store 00020000 00000000 00000007
op 0 0.0.3 0001000c load 00020000 00000007
op 0 0.0.4 00010010 plain
op 0 0.0.5 00010014 plain
";

const EXCHANGED: &str = "op 0 0.0.0 00010000 plain
op 0 0.0.1 00010004 plain
op 0 0.0.3 0001000c load 00020000 00000007
op 0 0.0.2 00010008 store 00020000 00000000 00000007
";

#[test]
fn judges_texts(rt: HostRuntime) -> Result<(), Fail> {
    let image = load(rt.alloc(), &IMAGE, 16)?;
    let rows = [
        (WITNESS, Ok(6)),
        ("", Ok(0)),
        (EXCHANGED, Err(CheckRefusal::NotLegal(3))),
        ("op 0 0.0.0 00010000 plain", Err(CheckRefusal::BadLine(1))),
        ("op 0 0.0 00010000 plain\n", Err(CheckRefusal::BadLine(1))),
        (
            "op 1 0.0.0 00010000 plain\n",
            Err(CheckRefusal::NotLegal(1)),
        ),
    ];
    for (text, answer) in rows {
        assert_eq!(rt;
            check(rt.alloc(), &image, ONE_HART, 16, text.as_bytes()),
            answer
        );
        assert_eq!(rt;
            check(rt.alloc(), &image, ONE_HART, 64, text.as_bytes()),
            answer
        );
    }
    Ok(())
}

#[test]
fn judges_starts(rt: HostRuntime) -> Result<(), Fail> {
    let image = load(rt.alloc(), &IMAGE, 16)?;
    let met = Start {
        stack_base: 0x10000,
        ..ONE_HART
    };
    let overlap = CheckRefusal::StackOverlap { hart: 0, header: 0 };
    assert_eq!(rt; check(rt.alloc(), &image, met, 16, b"x"), Err(overlap));
    let large = Start {
        harts: 64,
        stack_base: 0x8000_0000,
        stack_bytes: 0x10_0000,
        ..ONE_HART
    };
    let many = CheckRefusal::TooManyItems(4_194_307);
    assert_eq!(rt; check(rt.alloc(), &image, large, 16, b""), Err(many));
    Ok(())
}

#[test]
fn reads_in_pieces(rt: HostRuntime) -> Result<(), Fail> {
    let image = load(rt.alloc(), &IMAGE, 16)?;
    let mut reader = WitnessReader::new(rt.alloc(), &image, ONE_HART, 16)?;
    for byte in WITNESS.as_bytes() {
        assert_eq!(rt; reader.feed(&[*byte]), Ok(()));
    }
    assert_eq!(rt; reader.finish(), Ok(6));
    Ok(())
}
