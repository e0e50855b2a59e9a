//! Files that are loaded or refused, as theorems.

ghost use Rattle.elf_load.specs.SegmentEdges.{SegmentEdges};
ghost use Rattle.elf_load.specs.CutImages.{CutImages};
ghost use Rattle.elf_load.specs.ContradictoryImages.{ContradictoryImages};
ghost use Rattle.elf_load.specs.LinkedImage.{LinkedImage};

/// Segments at the edges of memory and of each other.
pub fn segment_edges()
    ensures { SegmentEdges }
{}

/// Every file that is a small program's cut short.
pub fn cut_images()
    ensures { CutImages }
{}

/// Files whose fields contradict each other or the limits.
pub fn contradictory_images()
    ensures { ContradictoryImages }
{}

/// An image as linkers make it.
pub fn linked_image()
    ensures { LinkedImage }
{}
