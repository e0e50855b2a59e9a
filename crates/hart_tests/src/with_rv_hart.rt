//! Tests of a hart.

ghost use Rattle.std.specs.Prelude.{◌≡◌, IfOk, None};

use crate::of_ddm_types::{
    Code, CodePart, Effect, HaltCause, Items, MOST_ITEMS, NoMemory, Span, Words, count_items,
};
use crate::of_rv_hart::{Ask, Hart};
use rv_decode::Reg;
use std::alloc::Global;
use std::test::Fail;

const CODE: u32 = 0x10000;

const DATA: u32 = 0x20000;

/// The code that has this word alone.
fn code_of_word(alloc: Global, word: u32) -> Result<Code, NoMemory> {
    let part = CodePart {
        start: CODE,
        words: vec![in alloc; word]?,
    };
    Code::from_parts(alloc, vec![in alloc; part]?)
}

/// The table of one item of four words.
#[tactic(auto, unfolding(crate::specs::Opened::items_of))]
fn one_item(alloc: Global) -> Result<Items, NoMemory>
    ensures { IfOk result (λ items. items.size ≡ 16) }
{
    let spans = [Span {
        start: DATA,
        bytes: 16,
        writable: true,
    }];
    if count_items(alloc, &spans, 16)? > u64::from(MOST_ITEMS) {
        return Err(NoMemory);
    }
    Items::from_spans(alloc, &spans, 16)
}

/// A hart at the code, with these values in x5 and x6.
fn hart_with(x5: u32, x6: u32) -> Hart
    ensures running { result.hart.halt ≡ None }
    ensures done { result.done ≡ 7 }
{
    let mut registers = [0; 32];
    registers[5] = x5;
    registers[6] = x6;
    Hart::restore(registers, CODE, 7, None)
}

/// What one instruction asks for.
fn ask_for(alloc: Global, word: u32, x5: u32, x6: u32) -> Result<Ask, NoMemory> {
    let code = code_of_word(alloc, word)?;
    let items = one_item(alloc)?;
    Ok(hart_with(x5, x6).ask(&code, &items))
}

/// The hart and the effect after one instruction over these words.
fn finished(
    alloc: Global,
    word: u32,
    x5: u32,
    x6: u32,
    words: &mut Words<4>,
    sc_ok: bool,
) -> Result<(Hart, Effect), Fail> {
    let code = code_of_word(alloc, word)?;
    let items = one_item(alloc)?;
    let mut hart = hart_with(x5, x6);
    match hart.ask(&code, &items) {
        Ask::Halt(_) => Err(Fail::from("a halt")),
        _ => {
            let effect = hart.finish(&code, &items, words, sc_ok);
            Ok((hart, effect))
        }
    }
}

/// x7 after an instruction without an access.
fn x7_after(alloc: Global, word: u32, x5: u32, x6: u32) -> Result<u32, Fail> {
    let (hart, _) = finished(alloc, word, x5, x6, &mut Words { w: [0; 4] }, false)?;
    Ok(hart.register(Reg(7)))
}

#[test]
fn results(rt: HostRuntime) -> Result<(), Fail> {
    // SLTIU x7, x5, -1
    assert_eq!(rt; x7_after(rt.alloc(), 0xfff2_b393, 0xffff_fffe, 0)?, 1);
    assert_eq!(rt; x7_after(rt.alloc(), 0xfff2_b393, 0xffff_ffff, 0)?, 0);
    // SRAI and SRLI x7, x5, 4
    assert_eq!(rt;
        x7_after(rt.alloc(), 0x4042_d393, 0x8000_0000, 0)?,
        0xf800_0000
    );
    assert_eq!(rt;
        x7_after(rt.alloc(), 0x0042_d393, 0x8000_0000, 0)?,
        0x0800_0000
    );
    // SLL and SRA x7, x5, x6
    assert_eq!(rt; x7_after(rt.alloc(), 0x0062_93b3, 0x8000_0001, 33)?, 2);
    assert_eq!(rt;
        x7_after(rt.alloc(), 0x4062_d3b3, 0x8000_0000, 31)?,
        0xffff_ffff
    );
    Ok(())
}

#[test]
fn jumps(rt: HostRuntime) -> Result<(), Fail> {
    // JALR x7, 0(x5)
    let (hart, effect) = finished(
        rt.alloc(),
        0x0002_83e7,
        0x10009,
        0,
        &mut Words { w: [0; 4] },
        false,
    )?;
    assert_eq!(rt; hart.pc(), 0x10008);
    assert_eq!(rt; hart.register(Reg(7)), 0x10004);
    assert_eq!(rt; hart.done(), 8);
    assert_eq!(rt; effect, Effect::Plain);
    // BEQ x5, x6, 2
    assert_eq!(rt;
        ask_for(rt.alloc(), 0x0062_8163, 3, 3)?,
        Ask::Halt(HaltCause::MisalignedTarget(0x10002))
    );
    assert_eq!(rt; ask_for(rt.alloc(), 0x0062_8163, 3, 4)?, Ask::Plain);
    Ok(())
}

#[test]
fn loads(rt: HostRuntime) -> Result<(), Fail> {
    let mut words = Words {
        w: [0, 0x80ff_7f01, 0, 0],
    };
    // LB and LBU x7, 4..8(x5)
    let bytes = [
        (0, 1, 1),
        (1, 0x7f, 0x7f),
        (2, 0xffff_ffff, 0xff),
        (3, 0xffff_ff80, 0x80),
    ];
    for (offset, signed, unsigned) in bytes {
        let (hart, effect) = finished(
            rt.alloc(),
            0x0042_8383 + offset * 0x10_0000,
            DATA,
            0,
            &mut words,
            false,
        )?;
        assert_eq!(rt; hart.register(Reg(7)), signed);
        assert_eq!(rt;
            effect,
            Effect::Load {
                address: 0x20004,
                word: 0x80ff_7f01
            }
        );
        let (hart, _) = finished(
            rt.alloc(),
            0x0042_c383 + offset * 0x10_0000,
            DATA,
            0,
            &mut words,
            false,
        )?;
        assert_eq!(rt; hart.register(Reg(7)), unsigned);
    }
    // LH and LHU x7, 4(x5) and 6(x5)
    for (offset, signed, unsigned) in [(0, 0x7f01, 0x7f01), (2, 0xffff_80ff, 0x80ff)] {
        let (hart, _) = finished(
            rt.alloc(),
            0x0042_9383 + offset * 0x10_0000,
            DATA,
            0,
            &mut words,
            false,
        )?;
        assert_eq!(rt; hart.register(Reg(7)), signed);
        let (hart, _) = finished(
            rt.alloc(),
            0x0042_d383 + offset * 0x10_0000,
            DATA,
            0,
            &mut words,
            false,
        )?;
        assert_eq!(rt; hart.register(Reg(7)), unsigned);
    }
    Ok(())
}

#[test]
fn stores(rt: HostRuntime) -> Result<(), Fail> {
    // SB x6, 4..8(x5)
    let bytes = [
        (0, 0x4433_2288),
        (1, 0x4433_8811),
        (2, 0x4488_2211),
        (3, 0x8833_2211),
    ];
    for (offset, after) in bytes {
        let mut words = Words {
            w: [0, 0x4433_2211, 0, 0],
        };
        finished(
            rt.alloc(),
            0x0062_8223 + offset * 0x80,
            DATA,
            0x9988,
            &mut words,
            false,
        )?;
        assert_eq!(rt; words.w[1], after);
    }
    // SH x6, 4(x5) and 6(x5)
    for (offset, after) in [(0, 0x4433_9988), (2, 0x9988_2211)] {
        let mut words = Words {
            w: [0, 0x4433_2211, 0, 0],
        };
        finished(
            rt.alloc(),
            0x0062_9223 + offset * 0x80,
            DATA,
            0x9988,
            &mut words,
            false,
        )?;
        assert_eq!(rt; words.w[1], after);
    }
    Ok(())
}

#[test]
fn atomic_operations(rt: HostRuntime) -> Result<(), Fail> {
    // AMOADD, SWAP, XOR, OR, AND, MIN, MAX, MINU and MAXU.W x7, x6, (x5), of the least number and -1
    let operations = [
        (0b00000, 0x7fff_ffff),
        (0b00001, 0xffff_ffff),
        (0b00100, 0x7fff_ffff),
        (0b01000, 0xffff_ffff),
        (0b01100, 0x8000_0000),
        (0b10000, 0x8000_0000),
        (0b10100, 0xffff_ffff),
        (0b11000, 0x8000_0000),
        (0b11100, 0xffff_ffff),
    ];
    for (funct5, after) in operations {
        let mut words = Words {
            w: [0x8000_0000, 0, 0, 0],
        };
        let (hart, _) = finished(
            rt.alloc(),
            0x0062_a3af + funct5 * 0x0800_0000,
            DATA,
            0xffff_ffff,
            &mut words,
            false,
        )?;
        assert_eq!(rt; words.w[0], after);
        assert_eq!(rt; hart.register(Reg(7)), 0x8000_0000);
    }
    Ok(())
}

#[test]
fn conditional_store(rt: HostRuntime) -> Result<(), Fail> {
    // SC.W x7, x6, (x5)
    let mut words = Words { w: [1, 2, 3, 4] };
    let (hart, effect) = finished(rt.alloc(), 0x1862_a3af, DATA, 9, &mut words, false)?;
    assert_eq!(rt; hart.register(Reg(7)), 1);
    assert_eq!(rt; effect, Effect::ScFail { address: DATA });
    assert_eq!(rt; words.w[0], 1);
    let (hart, effect) = finished(rt.alloc(), 0x1862_a3af, DATA, 9, &mut words, true)?;
    assert_eq!(rt; hart.register(Reg(7)), 0);
    assert_eq!(rt;
        effect,
        Effect::ScOk {
            address: DATA,
            before: 1,
            after: 9
        }
    );
    assert_eq!(rt; words.w[0], 9);
    Ok(())
}
