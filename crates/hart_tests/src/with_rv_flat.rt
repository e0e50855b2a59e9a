//! Tests of the flat machine.

ghost use Rattle.std.specs.Prelude.{◌≡◌, ◌*◌, ◌<◌, IfOk, length};
ghost use Rattle.rv_flat.specs.FlatState.{HasItems};

use crate::of_ddm_types::{
    Code, CodePart, Effect, HaltCause, HartNo, Items, MOST_ITEMS, NoMemory, Span, Start,
    count_items,
};
use rv_decode::Reg;
use rv_flat::*;
use std::alloc::Global;
use std::test::Fail;

const ENTRY: u32 = 0x10000;

const DATA: u32 = 0x20000;

const TWO_HARTS: Start = Start {
    entry: ENTRY,
    harts: 2,
    stack_base: 0x8000_0000,
    stack_bytes: 4096,
};

/// Items of 16 bytes: the one at the data.
fn data_item(alloc: Global) -> Result<Items, NoMemory>
    ensures { IfOk result (λ items. items.size ≡ 16) }
{
    let spans = [Span {
        start: DATA,
        bytes: 16,
        writable: true,
    }];
    let count = count_items(alloc, &spans, 16)?;
    if count > u64::from(MOST_ITEMS) {
        return Err(NoMemory);
    }
    Items::from_spans(alloc, &spans, 16)
}

/// Two harts at their start, over words that are all 0.
fn machine_of(alloc: Global, items: &Items) -> Result<FlatMachine, NoMemory>
    requires { items.now.size ≡ 16 }
    ensures items { IfOk result (λ made. HasItems made items.now) }
    ensures harts { IfOk result (λ made. length made.machine.harts ≡ 2) }
{
    let words = vec![in alloc; 0; items.len() as usize * 4]?;
    FlatMachine::new(alloc, items, words, 16, TWO_HARTS)
}

fn code_of(alloc: Global, words: Vec<u32>) -> Result<Code, NoMemory>
    requires { length words.items < 16 }
{
    let part = CodePart {
        start: ENTRY,
        words,
    };
    Code::from_parts(alloc, vec![in alloc; part]?)
}

#[test]
fn stores_and_loads_back(rt: HostRuntime) -> Result<(), Fail> {
    let code = code_of(
        rt.alloc(),
        vec![in rt.alloc(); 0x0002_02b7, 0x0070_0313, 0x0062_a023, 0x0002_a383]?,
    )?;
    let items = data_item(rt.alloc())?;
    let mut machine = machine_of(rt.alloc(), &items)?;
    let hart = HartNo(0);
    assert_eq!(rt; machine.step(&code, &items, hart, true), Ok(Effect::Plain));
    assert_eq!(rt; machine.step(&code, &items, hart, true), Ok(Effect::Plain));
    let store = Effect::Store {
        address: DATA,
        before: 0,
        after: 7,
    };
    assert_eq!(rt; machine.step(&code, &items, hart, true), Ok(store));
    let load = Effect::Load {
        address: DATA,
        word: 7,
    };
    assert_eq!(rt; machine.step(&code, &items, hart, true), Ok(load));
    assert_eq!(rt; machine.register(hart, Reg(7)), 7);
    assert_eq!(rt; machine.pc(hart), ENTRY + 16);
    assert_eq!(rt; machine.pc(HartNo(1)), ENTRY);
    assert_eq!(rt; machine.word(&items, DATA + 3), Some(7));
    assert_eq!(rt; machine.word(&items, DATA + 4), Some(0));
    assert_eq!(rt; machine.word(&items, DATA + 16), None);
    Ok(())
}

#[test]
fn one_byte_of_output(rt: HostRuntime) -> Result<(), Fail> {
    let code = code_of(
        rt.alloc(),
        vec![in rt.alloc(); 0x3e80_0893, 0x0480_0513, 0x0000_0073]?,
    )?;
    let items = data_item(rt.alloc())?;
    let mut machine = machine_of(rt.alloc(), &items)?;
    let hart = HartNo(0);
    let put = Effect::Put { byte: 0x48 };
    let past = HaltCause::FetchOutside(ENTRY + 12);
    assert_eq!(rt; machine.step(&code, &items, hart, true), Ok(Effect::Plain));
    assert_eq!(rt; machine.step(&code, &items, hart, true), Ok(Effect::Plain));
    assert_eq!(rt; machine.step(&code, &items, hart, true), Ok(put));
    assert_eq!(rt; machine.step(&code, &items, hart, true), Err(past));
    Ok(())
}

#[test]
fn reservations(rt: HostRuntime) -> Result<(), Fail> {
    let code = code_of(
        rt.alloc(),
        vec![in rt.alloc();
            0x0002_02b7,
            0x1002_a32f,
            0x1862_a3af,
            0x1002_a32f,
            0x1862_a3af,
        ]?,
    )?;
    let items = data_item(rt.alloc())?;
    let mut machine = machine_of(rt.alloc(), &items)?;
    let loaded = Effect::Lr {
        address: DATA,
        word: 0,
    };
    let stored = Effect::ScOk {
        address: DATA,
        before: 0,
        after: 0,
    };
    let failed = Effect::ScFail { address: DATA };
    let (first, second) = (HartNo(0), HartNo(1));
    assert_eq!(rt; machine.step(&code, &items, first, true), Ok(Effect::Plain));
    assert_eq!(rt;
        machine.step(&code, &items, second, true),
        Ok(Effect::Plain)
    );
    assert_eq!(rt; machine.step(&code, &items, first, true), Ok(loaded));
    assert_eq!(rt; machine.step(&code, &items, second, true), Ok(loaded));
    assert_eq!(rt; machine.step(&code, &items, first, true), Ok(stored));
    assert_eq!(rt; machine.step(&code, &items, second, true), Ok(failed));
    assert_eq!(rt; machine.register(first, Reg(7)), 0);
    assert_eq!(rt; machine.register(second, Reg(7)), 1);
    assert_eq!(rt; machine.step(&code, &items, first, true), Ok(loaded));
    assert_eq!(rt; machine.step(&code, &items, first, false), Ok(failed));
    Ok(())
}

#[test]
fn store_outside(rt: HostRuntime) -> Result<(), Fail> {
    let code = code_of(rt.alloc(), vec![in rt.alloc(); 0x0061_2023]?)?;
    let items = data_item(rt.alloc())?;
    let mut machine = machine_of(rt.alloc(), &items)?;
    let hart = HartNo(0);
    let cause = HaltCause::StoreOutside(0x8000_1000);
    assert_eq!(rt; machine.halted(hart), None);
    assert_eq!(rt; machine.step(&code, &items, hart, true), Err(cause));
    assert_eq!(rt; machine.step(&code, &items, hart, true), Err(cause));
    assert_eq!(rt; machine.halted(hart), Some(cause));
    assert_eq!(rt; machine.pc(hart), ENTRY);
    Ok(())
}

/// Steps the first hart this often, or until it halts, and answers how often it was.
fn steps_made(machine: &mut FlatMachine, code: &Code, items: &Items, most: u32) -> u32
    requires items { HasItems machine.old items.now }
    requires harts { 0 < length machine.old.machine.harts }
    ensures { HasItems machine.new items.now }
{
    for number in 0..most {
        if machine.step(code, items, HartNo(0), true).is_err() {
            return number;
        }
    }
    most
}

#[test]
fn many_steps(rt: HostRuntime) -> Result<(), Fail> {
    let code = code_of(
        rt.alloc(),
        vec![in rt.alloc(); 0x0002_02b7, 0x0013_0313, 0x0062_a023, 0xff9f_f06f]?,
    )?;
    let items = data_item(rt.alloc())?;
    let mut machine = machine_of(rt.alloc(), &items)?;
    assert_eq!(rt; steps_made(&mut machine, &code, &items, 100_000), 100_000);
    assert_eq!(rt; machine.word(&items, DATA), Some(33_333));
    Ok(())
}
