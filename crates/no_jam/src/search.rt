//! The first turn of a bus that would be granted.

ghost use Rattle.std.specs.Prelude.{◌≡◌, ◌<◌, Some, find, map, true, unwrap_or};
ghost use Rattle.std.specs.List.{range_with_len};
ghost use Rattle.no_jam.specs.DdmTypes.declared.turns.Turn.{Turn};
ghost use Rattle.no_jam.specs.TreeModel.Turns.Machine.{child_count, is_child_of};
ghost use Rattle.no_jam.specs.TreeModel.Turns.Tree.{bus_of_number};
ghost use Rattle.no_jam.specs.DdmTree.Machine.{is_part};
ghost use Rattle.any_machine.specs.Any.{machine_state};
ghost use Rattle.jam_laws.specs.GoesOn.{first_granted, turns_of_bus, would_grant};
ghost use Rattle.no_jam.specs.Asked.{child_turn};

use crate::of_ddm_types::{BusNo, ChildNo, Turn};
use any_machine::AnyMachine;

/// A turn that names a child.
#[derive(Clone, Copy)]
pub(crate) enum Asked {
    Reply,
    Request,
}

/// The turn of a child.
fn child_turn(asked: &Asked, bus: BusNo, child: u32) -> Turn
    ensures { result ≡ child_turn asked.now bus child }
{
    match asked {
        Asked::Reply => Turn::Reply {
            bus,
            child: ChildNo(child),
        },
        Asked::Request => Turn::Request {
            bus,
            child: ChildNo(child),
        },
    }
}

/// Whether the turn of a child would be granted.
fn child_goes(machine: &AnyMachine, asked: &Asked, bus: BusNo, child: u32) -> bool
    requires { is_child_of child (child_count bus (machine_state machine.now).machine) ≡ true }
    ensures { result ≡ would_grant (machine_state machine.now).machine (child_turn asked.now bus child) }
{
    machine.would_grant(child_turn(asked, bus, child))
}

/// Whether Down of the bus would be granted.
fn down_goes(machine: &AnyMachine, bus: BusNo) -> bool
    requires { is_part (bus_of_number bus) (machine_state machine.now).machine ≡ true }
    ensures { result ≡ would_grant (machine_state machine.now).machine (Turn.Down bus) }
{
    machine.would_grant(Turn::Down { bus })
}

/// The turn of the first child that would be granted.
fn first_child(machine: &AnyMachine, asked: &Asked, bus: BusNo, kids: u32) -> Option<Turn>
    requires { Some kids ≡ child_count bus (machine_state machine.now).machine }
    ensures { result ≡ find (would_grant (machine_state machine.now).machine) (map (child_turn asked.now bus) (range_with_len 0 kids)) }
{
    for child in 0..kids {
        if child_goes(machine, asked, bus, child) {
            return Some(child_turn(asked, bus, child));
        }
    }
    None
}

/// The first turn of a bus that would be granted.
fn first_of_bus(machine: &AnyMachine, bus: BusNo) -> Option<Turn>
    requires { is_part (bus_of_number bus) (machine_state machine.now).machine ≡ true }
    ensures { result
        ≡ find (would_grant (machine_state machine.now).machine)
        (turns_of_bus bus (unwrap_or (child_count bus (machine_state machine.now).machine) 0)) }
{
    if down_goes(machine, bus) {
        return Some(Turn::Down { bus });
    }
    let kids = machine.children(bus);
    match first_child(machine, &Asked::Reply, bus, kids) {
        Some(turn) => Some(turn),
        None => first_child(machine, &Asked::Request, bus, kids),
    }
}

/// The first turn that would be granted: buses by number, and on a bus Down, then Reply by child, then Request by child.
pub fn first_granted(machine: &AnyMachine) -> Option<Turn>
    ensures { result ≡ first_granted (machine_state machine.now).machine }
{
    let buses = machine.counts().buses;
    for bus in 0..buses {
        let turn = first_of_bus(machine, BusNo(bus));
        if turn.is_some() {
            return turn;
        }
    }
    None
}
