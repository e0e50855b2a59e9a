//! Tests of checkpoints.

use crate::one_bus::{OneBus, STORE_AND_LOAD, as_any, bytes_of, one_bus};
use checkpoint::save;
use run_engine::{AnyMachine, RunCounts, release};
use std::alloc::Global;
use std::test::Fail;

/// What is saved of a machine before its first turn.
fn saved(alloc: Global, machine: &AnyMachine) -> Result<Vec<u8>, Fail> {
    if machine.ops().len() != 0 {
        return Err(Fail::from("a machine after turns"));
    }
    let counts = RunCounts {
        turns: 0,
        retired: 0,
        granted: 0,
        busy: 0,
    };
    Ok(save(alloc, machine, counts)?)
}

/// The words of the machine's state.
fn words(alloc: Global, machine: &OneBus) -> Result<Vec<u32>, Fail> {
    if machine.ops().len() > 99 {
        return Err(Fail::from("a machine after many turns"));
    }
    let mut words = Vec::new(alloc);
    machine.write_state(&mut words)?;
    Ok(words)
}

/// The words of the state of one leaf before its first turn.
fn first_words(alloc: Global) -> Result<Vec<u32>, Fail> {
    let machine = one_bus(alloc, "(L)", 16, &STORE_AND_LOAD)?;
    words(alloc, &machine)
}

/// What is saved of it.
fn first_file(alloc: Global) -> Result<Vec<u8>, Fail> {
    let machine = as_any(one_bus(alloc, "(L)", 16, &STORE_AND_LOAD)?);
    let file = saved(alloc, &machine);
    release(machine);
    file
}

// After eleven words that say which machine it is come those of its state.
#[test]
fn whole_file(rt: HostRuntime) -> Result<(), Fail> {
    let file = first_file(rt.alloc())?;
    let state = bytes_of(rt.alloc(), &first_words(rt.alloc())?)?;
    assert_eq!(rt; file.len(), 396);
    assert!(rt; file.starts_with(&[0x44, 0x44, 0x4d, 0x43, 1, 0, 0, 0]));
    assert_eq!(rt; file.get(44..), Some(state.as_slice()));
    Ok(())
}
