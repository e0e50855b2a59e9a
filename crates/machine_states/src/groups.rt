//! Turns of one kind, by what they name.

ghost use Rattle.std.specs.Prelude.{◌≡◌, ◌++◌, ◌≤◌, OnOk, flat_map, map};
ghost use Rattle.std.specs.List.{range_with_len};
ghost use Rattle.machine_states.specs.Listed.{hart_turns};

use ddm_types::{BusNo, ChildNo, HartNo, NoMemory, Turn};

// Each puts turns after the others.

fn push_victims(turns: &mut Vec<Turn>, hart: HartNo, ways: u32) -> Result<(), NoMemory>
    requires { ways ≤ 4 }
    ensures { OnOk result (turns.new.items ≡ turns.old.items ++ hart_turns ways hart) }
{
    for victim in 0..ways {
        let victim = victim as u8;
        turns.push(Turn::Hart { hart, victim })?;
    }
    Ok(())
}

pub(crate) fn push_harts(turns: &mut Vec<Turn>, leaves: u32, ways: u32) -> Result<(), NoMemory>
    requires { ways ≤ 4 }
    ensures { OnOk result (turns.new.items ≡ turns.old.items ++ flat_map (hart_turns ways) (range_with_len 0 leaves)) }
{
    for leaf in 0..leaves {
        push_victims(turns, HartNo(leaf), ways)?;
    }
    Ok(())
}

pub(crate) fn push_requests(
    turns: &mut Vec<Turn>,
    bus: BusNo,
    children: u32,
) -> Result<(), NoMemory>
    ensures { OnOk result (turns.new.items ≡ turns.old.items ++ map (Turn.Request bus) (range_with_len 0 children)) }
{
    for child in 0..children {
        let child = ChildNo(child);
        turns.push(Turn::Request { bus, child })?;
    }
    Ok(())
}

pub(crate) fn push_replies(turns: &mut Vec<Turn>, bus: BusNo, children: u32) -> Result<(), NoMemory>
    ensures { OnOk result (turns.new.items ≡ turns.old.items ++ map (Turn.Reply bus) (range_with_len 0 children)) }
{
    for child in 0..children {
        let child = ChildNo(child);
        turns.push(Turn::Reply { bus, child })?;
    }
    Ok(())
}

pub(crate) fn push_choices(
    turns: &mut Vec<Turn>,
    bus: BusNo,
    child: ChildNo,
    count: u32,
) -> Result<(), NoMemory>
    requires { count ≤ 255 }
    ensures { OnOk result
        (turns.new.items
        ≡ turns.old.items ++ map (λ choice. Turn.Leave bus child choice) (range_with_len 0 count)) }
{
    for choice in 0..count {
        let choice = choice as u8;
        turns.push(Turn::Leave { bus, child, choice })?;
    }
    Ok(())
}
