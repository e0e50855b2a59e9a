//! The type of a directory over leaves.

ghost use Rattle.std.specs.Prelude.{◌≡◌, map, IfOk};
ghost use Rattle.cluster.specs.TreeModel.State.Values.{dir_node, leaf_node, nodes};

use crate::of_ddm_types::NoMemory;
use crate::of_leaf_protocol::Leaf;
use ddm_tree::Dir;
use std::alloc::Global;

/// A directory over leaves.
#[derive(Drop)]
pub struct Cluster<const WAYS: usize, const WORDS: usize> {
    pub(crate) dir: Dir<WORDS, Leaf<WAYS, WORDS>>,
}

impl<const WAYS: usize, const WORDS: usize> Cluster<WAYS, WORDS> {
    pub fn new(dir: Dir<WORDS, Leaf<WAYS, WORDS>>) -> Self
        ensures { dir_node result.dir.state (nodes (map leaf_node result.dir.children.items))
            ≡ dir_node dir.entry.state (nodes (map leaf_node dir.entry.children.items)) }
    {
        Cluster { dir }
    }
}

/// Each of these directories as one.
pub fn clusters<const WAYS: usize, const WORDS: usize>(
    alloc: Global,
    dirs: Vec<Dir<WORDS, Leaf<WAYS, WORDS>>>,
) -> Result<Vec<Cluster<WAYS, WORDS>>, NoMemory>
    ensures { IfOk result
        (λ cs. map (λ c. dir_node c.dir.state (nodes (map leaf_node c.dir.children.items))) cs.items
        ≡ map (λ d. dir_node d.state (nodes (map leaf_node d.children.items))) dirs.entry.items) }
{
    let mut clusters = Vec::new(alloc);
    for dir in dirs {
        clusters.push(Cluster::new(dir))?;
    }
    Ok(clusters)
}
