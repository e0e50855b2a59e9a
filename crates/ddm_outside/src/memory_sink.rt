//! A sink in memory that fails where it is told to.

ghost use Rattle.std.specs.Prelude.{◌≡◌, ◌<◌, ◌≤◌, ◌↔◌, Some, [], length, IsErr, IfOk, OnOk, OnErr, vec_len, vec_capacity};
ghost use Rattle.ddm_outside.specs.Causes.{raised, HasCause};
ghost use Rattle.ddm_outside.specs.Telling.{WritesTold};

use crate::calls::is_listed;
use crate::of_ddm_types::NoMemory;
use crate::{Failed, Sink};
use std::alloc::Global;

/// A sink in memory, which tells what it holds and fails where it is told to. It takes at most so many
/// bytes in a write. Its count, and the number of the next write, stay at their last value.
#[derive(Drop)]
pub struct MemorySink {
    held: Vec<u8>,
    room: usize,
    take: usize,
    fail: Vec<u64>,
    calls: u64,
    faults: u64,
    ghost takes: { 0 < take },
    ghost within: { vec_len held ≤ room },
    ghost reserved: { room ≤ vec_capacity held },
}

impl MemorySink {
    ghost use Rattle.ddm_outside.specs.MemorySink.{held_bytes, room_of, take_of, count_of};
    ghost use Rattle.ddm_outside.specs.MemorySink.{next_write, failing_writes};

    /// A sink that holds nothing yet. It takes memory for its room here, and none later. The writes are
    /// numbered from 0, and those whose numbers are listed fail.
    pub fn new(
        alloc: Global,
        room: usize,
        take: usize,
        fail: Vec<u64>,
    ) -> Result<MemorySink, NoMemory>
        requires { 0 < take }
        ensures empty { IfOk result (λ sink. held_bytes sink ≡ []) }
        ensures sound { IfOk result (λ sink. count_of sink ≡ 0) }
        ensures room { IfOk result (λ sink. room_of sink ≡ room) }
        ensures take { IfOk result (λ sink. take_of sink ≡ take) }
        ensures first { IfOk result (λ sink. next_write sink ≡ 0) }
        ensures failing { IfOk result (λ sink. failing_writes sink ≡ fail.items) }
    {
        Ok(MemorySink {
            held: Vec::with_capacity(alloc, room)?,
            room,
            take,
            fail,
            calls: 0,
            faults: 0,
        })
    }

    /// All bytes that it has taken.
    pub fn bytes(&self) -> &[u8]
        ensures { result.now ≡ held_bytes self.now }
    {
        &self.held
    }
}

impl Sink for MemorySink {
    ghost use Rattle.ddm_outside.specs.MemorySink.{held_bytes, count_of, FailsNext, amount_of, NumbersCall};

    ghost held = { λ sink. Some (held_bytes sink) };

    ghost faults = { count_of };

    fn write(&mut self, bytes: &[u8]) -> Result<usize, Failed>
        requires { 0 < length bytes.now }
        ensures took { WritesTold (Some (held_bytes self.old)) (Some (held_bytes self.new))
            bytes.now result }
        ensures cause { HasCause (count_of self.old) (count_of self.new) result }

        // Which writes fail, and how many bytes the others take.
        ensures fails { IsErr result ↔ FailsNext self.old }
        ensures amount { IfOk result (λ n. n ≡ amount_of self.old (length bytes.now)) }

        // What is counted.
        ensures sound { OnOk result (count_of self.new ≡ count_of self.old) }
        ensures counted { OnErr result (count_of self.new ≡ raised (count_of self.old)) }
        ensures number { NumbersCall self.old self.new }
    {
        let call = self.calls;
        self.calls = call.saturating_add(1);
        let free = self.room - self.held.len();
        if free == 0 || is_listed(&self.fail, call) {
            self.faults = self.faults.saturating_add(1);
            return Err(Failed);
        }
        let n = bytes.len().min(self.take).min(free);
        match self.held.extend_from_slice(&bytes[..n]) {
            Ok(()) => Ok(n),
            Err(_) => unreachable!(),
        }
    }
}
