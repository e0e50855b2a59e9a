//! Standard output and standard error as sinks.

ghost use Rattle.std.specs.Prelude.{◌≡◌, ◌<◌, ◌≤◌, IfOk, OnOk, OnErr, length, None};
ghost use Rattle.ddm_outside.specs.Causes.{raised, HasCause};
ghost use Rattle.ddm_outside.specs.Telling.{WritesTold};

use crate::{Failed, Sink};
use std::io::{self, Stderr, Stdout, Write};

#[derive(Drop)]
enum Stream {
    Output(Stdout),
    Faults(Stderr),
}

/// Standard output or standard error. It doesn't tell what it took. A write that takes none of the bytes
/// fails too. The count of the writes that failed stays at its last value.
#[derive(Drop)]
pub struct StdSink {
    stream: Stream,
    faults: u64,
}

impl StdSink {
    ghost use Rattle.ddm_outside.specs.StdSink.{count_of};

    /// A sink that writes to standard output.
    pub fn output(stream: Stdout) -> Self
        ensures { count_of result ≡ 0 }
    {
        StdSink {
            stream: Stream::Output(stream),
            faults: 0,
        }
    }

    /// A sink that writes to standard error.
    pub fn faults(stream: Stderr) -> Self
        ensures { count_of result ≡ 0 }
    {
        StdSink {
            stream: Stream::Faults(stream),
            faults: 0,
        }
    }

    fn offer(&mut self, bytes: &[u8]) -> io::Result<usize>
        ensures taken { IfOk result (λ n. n ≤ length bytes.now) }
        ensures counted { count_of self.new ≡ count_of self.old }
    {
        match &mut self.stream {
            Stream::Output(out) => out.write(bytes),
            Stream::Faults(out) => out.write(bytes),
        }
    }
}

impl Sink for StdSink {
    ghost use Rattle.ddm_outside.specs.StdSink.{count_of};

    ghost held = { λ _. None };

    ghost faults = { count_of };

    fn write(&mut self, bytes: &[u8]) -> Result<usize, Failed>
        requires { 0 < length bytes.now }
        ensures took { WritesTold None None bytes.now result }
        ensures cause { HasCause (count_of self.old) (count_of self.new) result }

        // What is counted.
        ensures sound { OnOk result (count_of self.new ≡ count_of self.old) }
        ensures counted { OnErr result (count_of self.new ≡ raised (count_of self.old)) }
    {
        match self.offer(bytes) {
            Ok(n) if n > 0 => Ok(n),
            _ => {
                self.faults = self.faults.saturating_add(1);
                Err(Failed)
            }
        }
    }
}
