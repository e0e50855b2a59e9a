//! The code of an image once more.

ghost use Rattle.std.specs.Prelude.{◌≡◌, IfOk};
ghost use Rattle.tree_model.specs.Start.Memory.{start_code};

use crate::code::code_of;
use crate::image::Image;
use crate::of_ddm_types::{Code, NoMemory};
use std::alloc::Global;

/// The code of an image once more, for a machine to keep.
pub fn copied_code(alloc: Global, image: &Image) -> Result<Code, NoMemory>
    ensures { IfOk result (λ code. code ≡ start_code image.now) }
{
    code_of(alloc, &image.segments)
}
