//! A cluster becomes a copy of another one.

use crate::cluster::Cluster;
use ddm_tree::CopyFrom;

impl<const WAYS: usize, const WORDS: usize> CopyFrom<WORDS> for Cluster<WAYS, WORDS> {
    fn copy_from(&mut self, other: &Self) {
        self.dir.copy_from(&other.dir);
    }
}
