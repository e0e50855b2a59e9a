//! A sink in memory that fails only where it is full.

ghost use Rattle.std.specs.Prelude.{◌≡◌, ◌<◌, Some, [], length, IfOk};
ghost use Rattle.ddm_outside.specs.Causes.{HasCause};
ghost use Rattle.ddm_outside.specs.Telling.{WritesTold};
ghost use Rattle.asked_commands.specs.Room.{FailsWhereFull};

use crate::answers::ROOM;
use crate::of_ddm_outside::{Failed, MemorySink, Sink};
use crate::of_ddm_types::NoMemory;
use std::alloc::Global;

/// A sink in memory of 1 MiB, no write to which fails while there is room. So a count of failures that rose says that it is full.
#[derive(Drop)]
pub struct RoomySink {
    sink: MemorySink,
    ghost full: { FailsWhereFull sink },
}

impl RoomySink {
    ghost use Rattle.asked_commands.specs.Asked.{held_of};

    /// A sink that holds nothing yet. It takes memory for its room here, and none later.
    pub fn new(alloc: Global) -> Result<RoomySink, NoMemory>
        ensures empty { IfOk result (λ out. held_of out ≡ []) }
    {
        Ok(RoomySink {
            sink: MemorySink::new(alloc, ROOM, ROOM, Vec::new(alloc))?,
        })
    }

    /// All bytes that it has taken.
    pub fn bytes(&self) -> &[u8]
        ensures { result.now ≡ held_of self.now }
    {
        self.sink.bytes()
    }
}

impl Sink for RoomySink {
    ghost use Rattle.asked_commands.specs.Asked.{failures_of, held_of};

    ghost held = { λ out. Some (held_of out) };

    ghost faults = { failures_of };

    fn write(&mut self, bytes: &[u8]) -> Result<usize, Failed>
        requires { 0 < length bytes.now }
        ensures took { WritesTold (Some (held_of self.old)) (Some (held_of self.new)) bytes.now result }
        ensures cause { HasCause (failures_of self.old) (failures_of self.new) result }
    {
        self.sink.write(bytes)
    }
}
