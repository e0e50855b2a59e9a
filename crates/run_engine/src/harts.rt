//! What the harts begin with.

ghost use Rattle.std.specs.Prelude.{◌≡◌, ◌≤◌, ◌+◌, ◌*◌};
ghost use Rattle.run_engine.specs.TreeModel.Start.Sources.{start_of_harts};

use crate::of_ddm_types::Start;
use crate::of_elf_load::Image;
use crate::tree::harts;
use tree_config::TreeConfig;

/// What the harts begin with.
pub fn start_of_harts(tree: &TreeConfig, image: &Image) -> Start
    ensures start { result ≡ start_of_harts tree.now image.now }
    ensures few { result.harts ≤ 64 }
    ensures fits { result.stack_base + result.harts * result.stack_bytes ≤ 4294967280 }
{
    Start {
        entry: image.entry,
        harts: harts(tree),
        stack_base: tree.stack_base,
        stack_bytes: tree.stack_bytes,
    }
}
