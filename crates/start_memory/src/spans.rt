//! The memory of segments and stacks.

ghost use Rattle.std.specs.Prelude.{◌≡◌, ◌≤◌, ◌<◌, ◌+◌, ◌*◌, All, IfOk};
ghost use Rattle.start_memory.specs.DdmTypes.ItemTable.{span_end};
ghost use Rattle.start_memory.specs.TreeModel.Start.Sources.{segment_span};
ghost use Rattle.elf_load.specs.ImageRule.{EndsInside};
ghost use Rattle.start_memory.specs.Memory.{memory_spans, stack_of};

use crate::of_ddm_types::{NoMemory, Span, Start};
use elf_load::Segment;
use std::alloc::Global;

/// The bytes of memory of a segment.
pub fn segment_span(segment: &Segment) -> Span
    ensures { result ≡ segment_span segment.now }
{
    Span {
        start: segment.vaddr,
        bytes: u64::from(segment.memsz),
        writable: segment.flags / 2 % 2 == 1,
    }
}

/// The stack of a hart.
pub fn stack_span(start: Start, hart: u32) -> Span
    requires hart { hart < start.harts }
    requires stacks { start.stack_base + start.harts * start.stack_bytes ≤ 4294967280 }
    ensures span { result ≡ stack_of start hart }
    ensures end { result.start + result.bytes ≤ 4294967280 }
{
    Span {
        start: start.stack_base + hart * start.stack_bytes,
        bytes: u64::from(start.stack_bytes),
        writable: true,
    }
}

/// The memory of segments and stacks.
pub fn spans_of(alloc: Global, segments: &[Segment], start: Start) -> Result<Vec<Span>, NoMemory>
    requires ends { All EndsInside segments.now }
    requires stacks { start.stack_base + start.harts * start.stack_bytes ≤ 4294967280 }
    ensures spans { IfOk result (λ spans. spans.items ≡ memory_spans start segments.now) }
    ensures ends { IfOk result (λ spans. All (λ span. span_end span ≤ 4294967296) spans.items) }
{
    let mut spans = Vec::new(alloc);
    for segment in segments {
        spans.push(segment_span(segment))?;
    }
    for hart in 0..start.harts {
        spans.push(stack_span(start, hart))?;
    }
    Ok(spans)
}
