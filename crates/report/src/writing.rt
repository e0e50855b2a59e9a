//! A text is written to a sink.

ghost use Rattle.std.specs.Prelude.{◌<◌, ◌≤◌, ◌++◌, length, take, IfOk, OnOk, OnErr};
ghost use Rattle.ddm_outside.specs.Causes.{HasCause};
ghost use Rattle.ddm_outside.specs.Telling.{WritesTold};
ghost use Rattle.report.specs.Appends.{Appends, AppendsPart, IsWrittenFrom};

use crate::line::Line;
use crate::parts::{LEAST_PIECE, Parts};
use ddm_outside::{Failed, Sink};

/// The most bytes that are offered to a sink in one write.
pub const MOST_OFFERED: usize = 65_536;

// Offers the first of the bytes in one write.
fn offer<K: Sink>(sink: &mut K, bytes: &[u8]) -> Result<usize, Failed>
    requires { 0 < length bytes.now }
    ensures took { WritesTold (K.held sink.old) (K.held sink.new) bytes.now result }
    ensures cause { HasCause (K.faults sink.old) (K.faults sink.new) result }
{
    let offered = bytes.len().min(MOST_OFFERED);
    sink.write(&bytes[..offered])
}

/// Writes all the bytes, or a first part of them where a write fails. A write is offered at most
/// `MOST_OFFERED` bytes, and no memory is taken.
pub fn write_all<K: Sink>(sink: &mut K, bytes: &[u8]) -> Result<(), Failed>
    ensures ok { OnOk result (Appends (K.held sink.old) (K.held sink.new) bytes.now) }
    ensures err { OnErr result (AppendsPart (K.held sink.old) (K.held sink.new) bytes.now) }
    ensures cause { HasCause (K.faults sink.old) (K.faults sink.new) result }
{
    let mut at = 0;
    'writing: while at < bytes.len() {
        at += offer(sink, &bytes[at..])?;
    }
    Ok(())
}

// Puts a line behind the bytes that a buffer holds, and says how many it then holds. Where there is no room for all of the line the
// buffer is written as it is full, and holds the rest.
fn put_line<K: Sink>(
    sink: &mut K,
    buffer: &mut [u8],
    filled: usize,
    line: &Line,
) -> Result<usize, Failed>
    requires within { filled ≤ length buffer.old }
    requires room { LEAST_PIECE ≤ length buffer.old }
    ensures within { IfOk result (λ n. n ≤ length buffer.new) }
    ensures ok { IfOk result
        (λ n. IsWrittenFrom (K.held sink.old) (K.held sink.new) (take filled buffer.old ++ line.now)
        (take n buffer.new)) }
    ensures err { OnErr result (AppendsPart (K.held sink.old) (K.held sink.new) (take filled buffer.old ++ line.now)) }
    ensures cause { HasCause (K.faults sink.old) (K.faults sink.new) result }
{
    let room = buffer.len() - filled;
    let len = line.len();
    let bytes = line.as_slice();
    if len <= room {
        let end = filled + len;
        buffer[filled..end].copy_from_slice(bytes);
        return Ok(end);
    }
    let (front, rest) = bytes.split_at(room);
    buffer[filled..].copy_from_slice(front);
    write_all(sink, buffer)?;
    buffer[..rest.len()].copy_from_slice(rest);
    Ok(rest.len())
}

/// Writes a text that is given part by part, over a buffer that is lent: each write but the last is of the whole buffer, so that a file
/// gets whole pages. No memory is taken.
pub fn write_pieces<P: Parts, K: Sink>(
    sink: &mut K,
    parts: &mut P,
    buffer: &mut [u8],
) -> Result<(), Failed>
    requires { LEAST_PIECE ≤ length buffer.old }
    ensures ok { OnOk result (Appends (K.held sink.old) (K.held sink.new) (P.left parts.old)) }
    ensures err { OnErr result (AppendsPart (K.held sink.old) (K.held sink.new) (P.left parts.old)) }
    ensures cause { HasCause (K.faults sink.old) (K.faults sink.new) result }
{
    let mut line = Line::new();
    let mut filled = 0;
    'writing: loop {
        line.clear();
        parts.put_next(&mut line);
        if line.is_empty() {
            return write_all(sink, &buffer[..filled]);
        }
        filled = put_line(sink, buffer, filled, &line)?;
    }
}
