//! Whether the sizes of a tree have room for its items.

ghost use Rattle.std.specs.Prelude.{◌≡◌};
ghost use Rattle.serving_runs.specs.ServingModel.Rest.{sizes_have_room};

use tree_config::TreeConfig;

/// Whether the items of one set of a leaf are no more than its ways, and each list has a place.
pub(crate) fn has_room(tree: &TreeConfig, items: u32) -> bool
    ensures { result ≡ sizes_have_room tree.now items }
{
    u64::from(items) <= u64::from(tree.sets) * u64::from(tree.ways)
        && 0 < tree.down
        && 0 < tree.requests
        && 0 < tree.replies
}
