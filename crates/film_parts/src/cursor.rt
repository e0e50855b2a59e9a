//! Words that are read one after the other.

ghost use Rattle.std.specs.Prelude.{◌≡◌, drop, slice_index, take};

use std::marker::Model;

/// The words of a part of a machine that weren't read yet. A contract sees them as a list.
#[derive(Drop)]
pub struct StateWords<'a> {
    left: &'a [u32],
}

impl<'a> Model for StateWords<'a> {
    ghost use Rattle.std.specs.Prelude.{ℕ, List};

    ghost Value = { List ℕ };

    ghost view = { λ w. w.left.now };
}

impl<'a> StateWords<'a> {
    pub fn new(words: &'a [u32]) -> StateWords<'a>
        ensures { result ≡ words.now }
    {
        StateWords { left: words }
    }

    /// The next word, which isn't read by that; 0 where none is left.
    pub fn peek(&self) -> u32
        ensures { result ≡ slice_index self.now 0 }
    {
        match self.left.first() {
            Some(word) => *word,
            None => 0,
        }
    }

    /// The next words, so many or all that are left.
    pub fn take(&mut self, count: usize) -> &'a [u32]
        ensures words { result.now ≡ take count self.old }
        ensures left { self.new ≡ drop count self.old }
    {
        let (front, rest) = self.left.split_at(count.min(self.left.len()));
        self.left = rest;
        front
    }

    /// The next word, and 0 where none is left.
    pub fn next(&mut self) -> u32
        ensures word { result ≡ slice_index self.old 0 }
        ensures left { self.new ≡ drop 1 self.old }
    {
        let word = self.peek();
        self.take(1);
        word
    }
}
