//! Words that are read from the front.

ghost use Rattle.std.specs.Prelude.{◌≡◌, drop, slice_index, take};

/// The first words, so many or all that there are, and the others.
pub(crate) fn parted(words: &[u32], count: usize) -> (&[u32], &[u32])
    ensures front { result.0.now ≡ take count words.now }
    ensures rest { result.1.now ≡ drop count words.now }
{
    words.split_at(count.min(words.len()))
}

/// The first word; 0 where there is none.
pub(crate) fn first(words: &[u32]) -> u32
    ensures { result ≡ slice_index words.now 0 }
{
    match words.first() {
        Some(word) => *word,
        None => 0,
    }
}
