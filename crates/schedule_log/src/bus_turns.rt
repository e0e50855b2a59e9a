//! All turns of a bus.

ghost use Rattle.std.specs.Prelude.{◌≡◌, ◌≤◌, ◌<◌, ◌+◌, ◌*◌, ◌%◌, IfOk};
ghost use Rattle.text_model.specs.Seeded.{bus_turn_from};
ghost use Rattle.schedule_log.specs.Seeding.{turns_of_bus};

use crate::of_ddm_types::{BusNo, ChildNo, Divisor, NoMemory, Turn};
use std::alloc::Global;
use std::marker::Model;

// The turn of a bus with this number of children, by the number of its source.
pub(crate) fn bus_turn(bus: BusNo, children: u32, choice: u8, source: u32) -> Turn
    requires few { children ≤ 16 }
    requires within { source < 1 + 3 * children }
    ensures { result ≡ bus_turn_from bus children choice source }
{
    if source == 0 {
        Turn::Down { bus }
    } else if source < children + 1 {
        Turn::Request {
            bus,
            child: ChildNo(source - 1),
        }
    } else if source < 2 * children + 1 {
        Turn::Reply {
            bus,
            child: ChildNo(source - children - 1),
        }
    } else {
        Turn::Leave {
            bus,
            child: ChildNo(source - 2 * children - 1),
            choice,
        }
    }
}

/// The turns of a bus with their choices, so that one is drawn by a look. A contract sees which bus it is, and how many children it
/// has.
#[derive(Drop)]
pub(crate) struct BusTurns {
    bus: BusNo,
    children: u32,
    sources: Divisor,
    turns: Vec<Turn>,
}

impl Model for BusTurns {
    ghost use Rattle.schedule_log.specs.Seeding.{IsDrawnFrom, OneBus};

    ghost Value = { OneBus };

    ghost view = { λ b. record { bus = b.bus; children = b.children } };

    ghost invariant = { λ b. IsDrawnFrom b.bus b.children b.sources b.turns.items };
}

// All turns of a bus: those of each source stand together, by their choices.
fn turns_of(alloc: Global, bus: BusNo, children: u32) -> Result<Vec<Turn>, NoMemory>
    requires { children ≤ 16 }
    ensures { IfOk result (λ turns. turns.items ≡ turns_of_bus bus children) }
{
    let count = (1 + 3 * children) * 16;
    let mut turns = Vec::with_capacity(alloc, count as usize)?;
    for place in 0..count {
        turns.push(bus_turn(bus, children, (place % 16) as u8, place / 16))?;
    }
    Ok(turns)
}

impl BusTurns {
    pub(crate) fn new(alloc: Global, bus: BusNo, children: u32) -> Result<BusTurns, NoMemory>
        requires { children ≤ 16 }
        ensures { IfOk result (λ b. b ≡ record { bus = bus; children = children }) }
    {
        let turns = turns_of(alloc, bus, children)?;
        Ok(BusTurns {
            bus,
            children,
            sources: Divisor::new(1 + 3 * children),
            turns,
        })
    }

    /// The turn with this choice of the source that a word draws.
    #[inline]
    pub(crate) fn turn(&self, choice: u32, word: u32) -> &Turn
        requires { choice < 16 }
        ensures { result.now ≡ bus_turn_from self.now.bus self.now.children choice (word % (1 + 3 * self.now.children)) }
    {
        let (_, source) = self.sources.divide(word);
        &self.turns[(source * 16 + choice) as usize]
    }
}
