/// The most bytes of an image that are read.
pub const MOST_IMAGE: u64 = 4_194_304;

/// The most bytes of a tree file that are read.
pub const MOST_TREE: u64 = 65_536;

/// How many turns of a seed are made at a time.
pub const BLOCK_TURNS: usize = 4096;
