//! The turns of a schedule.

use crate::numbers::{BusNo, ChildNo, HartNo};

/// One turn of a schedule: one try of a hart's next instruction, or one grant on a bus. `victim` chooses
/// the way that is freed where a set is full; `choice` chooses the copy that leaves.
#[derive(Clone, Copy, Debug, PartialEq, Eq)]
pub enum Turn {
    Hart {
        hart: HartNo,
        victim: u8,
    },
    Down {
        bus: BusNo,
    },
    Request {
        bus: BusNo,
        child: ChildNo,
    },
    Reply {
        bus: BusNo,
        child: ChildNo,
    },
    Leave {
        bus: BusNo,
        child: ChildNo,
        choice: u8,
    },
}
