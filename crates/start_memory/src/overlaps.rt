//! Stacks that meet segments.

ghost use Rattle.std.specs.Prelude.{◌≡◌, ◌≤◌, ◌<◌, ◌+◌, ◌*◌, ◌^◌, None, Some, MatchOption};
ghost use Rattle.start_memory.specs.TreeModel.Start.Machine.{header_met, overlap_from, spans_meet, stack_overlap};
ghost use Rattle.start_memory.specs.TreeModel.Start.Sources.{segment_span};
ghost use Rattle.start_memory.specs.Memory.{stacks_of};

use crate::of_ddm_types::{Span, Start};
use crate::spans::stack_span;
use elf_load::Segment;

/// A hart's stack and the segment of a header that have a byte in common.
#[derive(Clone, Copy, Debug, PartialEq, Eq)]
pub struct Overlap {
    pub hart: u32,
    pub header: u32,
}

fn meets(stack: &Span, segment: &Segment) -> bool
    requires { stack.now.start + stack.now.bytes < 2 ^ 64 }
    ensures { result ≡ spans_meet stack.now (segment_span segment.now) }
{
    let first = u64::from(segment.vaddr);
    let end = first + u64::from(segment.memsz);
    stack.bytes > 0
        && segment.memsz > 0
        && u64::from(stack.start) < end
        && first < u64::from(stack.start) + stack.bytes
}

// The header of the first segment that the stack meets.
fn header_met(stack: &Span, segments: &[Segment]) -> Option<u32>
    requires { stack.now.start + stack.now.bytes < 2 ^ 64 }
    ensures { result ≡ header_met stack.now segments.now }
{
    for segment in segments {
        if meets(stack, segment) {
            return Some(segment.header);
        }
    }
    None
}

/// The first stack that meets a segment, with the first such segment.
pub fn first_overlap(segments: &[Segment], start: Start) -> Option<Overlap>
    requires { start.stack_base + start.harts * start.stack_bytes ≤ 4294967280 }
    ensures { MatchOption result (overlap_from segments.now 0 (stacks_of start) ≡ None)
        (λ met. overlap_from segments.now 0 (stacks_of start) ≡ Some (stack_overlap met.hart met.header)) }
{
    for hart in 0..start.harts {
        if let Some(header) = header_met(&stack_span(start, hart), segments) {
            return Some(Overlap { hart, header });
        }
    }
    None
}
