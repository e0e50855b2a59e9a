//! What these tests share: two images, machines of one bus for them, and their turns.

ghost use Rattle.std.specs.Prelude.{◌≡◌, ◌+◌, ◌<◌, ◌≤◌, IfOk, OnOk, length, true};
ghost use Rattle.ddm_tree.specs.Machine.{is_part};
ghost use Rattle.machine_tests.specs.TreeModel.Turns.Machine.{child_count, is_child_of, names_part};
ghost use Rattle.machine_tests.specs.TreeModel.Turns.Tree.{bus_of_number, leaf_of_number};
ghost use Rattle.machine_tests.specs.AnyMachine.Any.{machine_state};

use crate::of_ddm_types::{BusNo, ChildNo, HartNo, LeafNo, NoMemory, Turn, TurnAnswer};
use crate::of_leaf_protocol::Leaf;
use crate::of_tree_config::{TreeConfig, read_tree};
use ddm_tree::Machine;
use elf_load::load;
use run_engine::{AnyMachine, Depths, Machines, build, release};
use std::alloc::Global;
use std::test::Fail;

/// The words of an image's file: it stores 7 at 0x20000, loads it back and exits with it.
pub const STORE_AND_LOAD: [u32; 36] = [
    0x464c457f, 0x00010101, 0, 0, // identity
    0x00f30002, 1, 0x10000, 52, 0, 0, // to the flags
    0x00200034, 2, 0, // sizes and counts
    1, 116, 0x10000, 0x10000, 28, 28, 5, 1, // the code
    1, 144, 0x20000, 0x20000, 0, 16, 6, 1, // the data
    0x000202b7, // lui x5,0x20
    0x00700313, // addi x6,x0,7
    0x0062a023, // sw x6,0(x5)
    0x0002a383, // lw x7,0(x5)
    0x05d00893, // addi x17,x0,93
    0x00038513, // addi x10,x7,0
    0x00000073, // ecall
];

/// Another one: it loads the word at 0x20000, which is 5, and asks to exit.
pub const LOAD_AND_EXIT: [u32; 34] = [
    0x464c457f, 0x00010101, 0, 0, // identity
    0x00f30002, 1, 0x10000, 52, 0, 0, // to the flags
    0x00200034, 2, 0, // sizes and counts
    1, 116, 0x10000, 0x10000, 16, 16, 5, 1, // the code
    1, 132, 0x20000, 0x20000, 4, 16, 6, 1, // the data
    0x000202b7, // lui x5,0x20
    0x0002a383, // lw x7,0(x5)
    0x05d00893, // addi x17,x0,93
    0x00000073, // ecall
    5,
];

/// A machine of one bus, with leaves of four ways and items of four words.
pub type OneBus = Machine<4, Leaf<4, 4>>;

/// A tree of this shape: leaves of one set, one place in each buffer, and lists of 16 entries.
fn tree_of(alloc: Global, shape: &str, stack_bytes: u32) -> Result<TreeConfig, Fail> {
    let text = format!(in alloc;
        "shape = \"{shape}\"\nways = 4\nsets = 1\nbuffer = 1\nparking = 1\ndown = 16\nrequests = 16\n\
        replies = 16\nstack_base = 196608\nstack_bytes = {stack_bytes}\n"
    )?;
    Ok(read_tree(alloc, text.as_str().as_bytes())?)
}

/// These words, the lowest byte of each first.
pub fn bytes_of(alloc: Global, words: &[u32]) -> Result<Vec<u8>, NoMemory> {
    let mut bytes = Vec::new(alloc);
    for word in words {
        bytes.extend_from_slice(&word.to_le_bytes())?;
    }
    Ok(bytes)
}

/// The machine of a tree of one bus and of an image, before its first turn.
pub fn one_bus(alloc: Global, shape: &str, stack_bytes: u32, image: &[u32]) -> Result<OneBus, Fail>
    ensures { IfOk result (λ machine. machine.turns ≡ 0) }
{
    let tree = tree_of(alloc, shape, stack_bytes)?;
    let image = load(alloc, &bytes_of(alloc, image)?, 16)?;
    match build(alloc, &tree, &image)? {
        AnyMachine::Narrow(Machines::FourWays(Depths::OneLevel(machine))) => Ok(machine),
        other => {
            release(other);
            Err(Fail::from("another tree"))
        }
    }
}

/// The same machine as one of any tree.
pub fn as_any(machine: OneBus) -> AnyMachine
    ensures { machine_state result ≡ machine }
{
    AnyMachine::Narrow(Machines::FourWays(Depths::OneLevel(machine)))
}

/// Whether the machine has this leaf.
pub fn has_leaf(machine: &OneBus, leaf: LeafNo) -> bool
    ensures { result ≡ true → is_part (leaf_of_number leaf) machine.now.machine ≡ true }
{
    leaf.0 < machine.counts().leaves
}

/// Whether the machine has this bus.
pub fn has_bus(machine: &OneBus, bus: BusNo) -> bool
    ensures { result ≡ true → is_part (bus_of_number bus) machine.now.machine ≡ true }
{
    bus.0 < machine.counts().buses
}

/// Whether a bus of the machine has this child.
pub fn has_child(machine: &OneBus, bus: BusNo, child: ChildNo) -> bool
    ensures { result ≡ true → is_child_of child (child_count bus machine.now.machine) ≡ true }
{
    has_bus(machine, bus) && child.0 < machine.children(bus)
}

/// Whether the machine has what a turn names.
fn has_named(machine: &OneBus, turn: &Turn) -> bool
    ensures { result ≡ true → names_part turn.now machine.now.machine ≡ true }
{
    match *turn {
        Turn::Hart { hart, .. } => has_leaf(machine, LeafNo(hart.0)),
        Turn::Down { bus } => has_bus(machine, bus),
        Turn::Request { bus, child }
        | Turn::Reply { bus, child }
        | Turn::Leave { bus, child, .. } => has_child(machine, bus, child),
    }
}

/// One turn, for whose operation there is memory.
fn turned(machine: &mut OneBus, turn: Turn) -> Result<TurnAnswer, Fail>
    requires { machine.old.turns < 100 }
    ensures { machine.new.turns ≤ machine.old.turns + 1 }
{
    if !has_named(machine, &turn) {
        return Err(Fail::from("a turn of another tree"));
    }
    machine.reserve(1)?;
    Ok(machine.turn(turn))
}

/// What these turns are answered, one after another.
pub fn answers(alloc: Global, machine: &mut OneBus, turns: &[Turn]) -> Result<Vec<TurnAnswer>, Fail>
    requires { machine.old.turns + length turns.now < 100 }
{
    let mut answers = Vec::new(alloc);
    for turn in turns {
        let answer = turned(machine, *turn)?;
        answers.extend_from_slice(&[answer])?;
    }
    Ok(answers)
}

/// A turn of hart 0.
pub const HART: Turn = Turn::Hart {
    hart: HartNo(0),
    victim: 0,
};

/// On two leaves: hart 0 reads the word at 0x20000 from leaf 1.
pub const READ: [Turn; 5] = [
    HART,
    HART,
    Turn::Request {
        bus: BusNo(0),
        child: ChildNo(0),
    },
    Turn::Reply {
        bus: BusNo(0),
        child: ChildNo(1),
    },
    HART,
];

/// The machine of two leaves after these turns.
pub fn after_a_read(alloc: Global) -> Result<OneBus, Fail> {
    let mut machine = one_bus(alloc, "(LL)", 0, &LOAD_AND_EXIT)?;
    answers(alloc, &mut machine, &READ)?;
    Ok(machine)
}
