//! The law that a written image is read as it was.

ghost use Rattle.elf_load.specs.LoadsBack.{LoadsBack};

/// An image that was written is read as it was, its headers numbered in order and segments of no memory left out, or refused.
pub fn written_loads_back()
    ensures loads_back { LoadsBack }
{}
