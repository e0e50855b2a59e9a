//! The items of one memory are put into another one with as many sets. Only the sets that are marked in either are looked at.

ghost use Rattle.std.specs.Prelude.{◌≡◌, ◌+◌, ◌≤◌, [], None, length};
ghost use Rattle.attraction_mem.specs.Copying.{AgreeWhereTagged, IsCopied, IsFreeUnmarked};
ghost use Rattle.attraction_mem.specs.Places.{IsSized};

use ddm_types::{ItemId, LeafState, Words};

/// Copies the ways of one set, the first of which is at this place.
#[inline(always)]
fn copy_set<const WAYS: usize, const WORDS: usize>(
    tags: &mut [Option<(ItemId, LeafState)>],
    words: &mut [Words<WORDS>],
    from_tags: &[Option<(ItemId, LeafState)>],
    from_words: &[Words<WORDS>],
    first: usize,
)
    requires inside { first + WAYS ≤ length tags.old }
    requires tags { length from_tags.now ≡ length tags.old }
    requires words { length words.old ≡ length tags.old }
    requires from_words { length from_words.now ≡ length tags.old }
    ensures tags { IsCopied None tags.old from_tags.now tags.new first WAYS }
    ensures words { IsCopied [] words.old from_words.now words.new first WAYS }
{
    for way in 0..WAYS {
        tags[first + way] = from_tags[first + way];
        words[first + way] = from_words[first + way];
    }
}

/// Copies the sets that hold something in either memory, and their marks. Words where nothing is held mean nothing.
pub fn copy_sets<const WAYS: usize, const WORDS: usize>(
    tags: &mut [Option<(ItemId, LeafState)>],
    words: &mut [Words<WORDS>],
    marks: &mut [u64],
    from_tags: &[Option<(ItemId, LeafState)>],
    from_words: &[Words<WORDS>],
    from_marks: &[u64],
)
    requires sized { IsSized WAYS (length marks.old) (length tags.old) }
    requires words { length words.old ≡ length tags.old }
    requires free { IsFreeUnmarked WAYS tags.old marks.old }
    requires from_tags { length from_tags.now ≡ length tags.old }
    requires from_words { length from_words.now ≡ length tags.old }
    requires from_marks { length from_marks.now ≡ length marks.old }
    requires from_free { IsFreeUnmarked WAYS from_tags.now from_marks.now }
    ensures tags { tags.new ≡ from_tags.now }
    ensures word_places { length words.new ≡ length from_words.now }
    ensures words { AgreeWhereTagged from_tags.now from_words.now words.new }
    ensures marks { marks.new ≡ from_marks.now }
{
    for set in 0..from_marks.len() {
        if marks[set] != 0 || from_marks[set] != 0 {
            copy_set::<WAYS, WORDS>(tags, words, from_tags, from_words, set * WAYS);
            marks[set] = from_marks[set];
        }
    }
}
