//! A sink that never fails.

ghost use Rattle.std.specs.Prelude.{◌≡◌, ◌+◌, ◌-◌, ◌^◌, ◌<◌, min, Ok, None, length};

use crate::{Failed, Sink};

/// A sink that takes all bytes and keeps none. It doesn't tell them, and never fails.
#[derive(Drop)]
pub struct SoundSink {
    taken: u64,
}

impl SoundSink {
    ghost use Rattle.ddm_outside.specs.SoundSink.{taken_by};

    /// A sink that has taken no bytes.
    pub fn new() -> SoundSink
        ensures { taken_by result ≡ 0 }
    {
        SoundSink { taken: 0 }
    }

    /// How many bytes it has taken. The count stays at its last value.
    pub fn taken(&self) -> u64
        ensures { result ≡ taken_by self.now }
    {
        self.taken
    }
}

impl Sink for SoundSink {
    ghost use Rattle.ddm_outside.specs.SoundSink.{taken_by};

    ghost held = { λ _. None };

    ghost faults = { λ _. 0 };

    fn write(&mut self, bytes: &[u8]) -> Result<usize, Failed>
        requires { 0 < length bytes.now }
        ensures all { result ≡ Ok (length bytes.now) }
        ensures counted { taken_by self.new ≡ min (taken_by self.old + length bytes.now) (2 ^ 64 - 1) }
    {
        self.taken = self.taken.saturating_add(bytes.len() as u64);
        Ok(bytes.len())
    }
}
