//! What tells the line at the front of a text.
ghost use Rattle.std.specs.Prelude.{◌≡◌, ◌≤◌, ◌+◌, ◌-◌, ℕ, List, true, drop, length, take};
ghost use Rattle.std.specs.Int.{to_le_bytes, w32, w64};
ghost use Rattle.schedule_log.specs.Seen.{IsFrontOf};

use crate::spelled::SPELLED_BYTES;

/// In each of eight bytes the bit that is a space. Digits and small letters have it, too, and a line feed doesn't.
const SPACES: u64 = 0x2020_2020_2020_2020;

/// The highest bit of eight bytes.
const HIGHEST: u64 = 0x8000_0000_0000_0000;

/// The most bytes of a line, with its line feed, that its front tells.
const MOST_TOLD: usize = 12;

/// The first eight bytes of a text, how many bytes its first line seems to have with its line feed, and the last four of these.
#[derive(Clone, Copy)]
pub(crate) struct Front {
    head: u64,
    last: u32,
    used: u32,
}

// The four bytes before a place.
#[inline(always)]
fn four_before(text: &[u8], place: usize) -> u32
    requires some { 4 ≤ place }
    requires inside { place ≤ length text.now }
    ensures { to_le_bytes w32 result ≡ take 4 (drop (place - 4) text.now) }
{
    u32::from_le_bytes([
        text[place - 4],
        text[place - 3],
        text[place - 2],
        text[place - 1],
    ])
}

// The eight bytes from a place on, read at once. Of bytes that are read one by one those that two numbers share would be read once, and
// each number put together byte by byte.
#[inline(always)]
fn eight_at(text: &[u8], place: usize) -> u64
    requires { place + 8 ≤ length text.now }
    ensures { to_le_bytes w64 result ≡ take 8 (drop place text.now) }
{
    match text[place..].first_chunk::<8>() {
        Some(eight) => u64::from_le_bytes(*eight),
        None => unreachable!(),
    }
}

// How many bytes there are up to the first line feed among these eight, which four are before, and 12 where there is none: all are
// looked at at once, so that the processor has no branch to guess. Another byte without the bit of a space, which no line of a turn
// has, ends them too. A line is told by what it is compared with, so little is claimed of this number. Since the highest bit is there,
// zeros are counted of a number that isn't 0, for which the processor needs no case.
#[inline(always)]
fn up_to_feed(eight: u64) -> u32
    ensures some { 5 ≤ result }
    ensures few { result ≤ 13 }
{
    (!eight & SPACES | HIGHEST).trailing_zeros() / 8 + 5
}

impl Front {
    /// One that no text has.
    #[inline(always)]
    pub(crate) fn of_none() -> Front
        ensures { (text : List ℕ) → IsFrontOf text result → ⊥ }
    {
        Front {
            head: 0,
            last: 0,
            used: 0,
        }
    }

    /// That of a text.
    #[inline(always)]
    pub(crate) fn of(text: &[u8]) -> Front
        requires { SPELLED_BYTES ≤ length text.now }
        ensures front { IsFrontOf text.now result }
        ensures few { result.used ≤ SPELLED_BYTES }
    {
        let used = up_to_feed(eight_at(text, 4));
        Front {
            head: eight_at(text, 0),
            last: four_before(text, used as usize),
            used,
        }
    }

    /// How many bytes the line seems to have with its line feed.
    #[inline(always)]
    pub(crate) fn used(&self) -> usize
        ensures { result ≡ self.now.used }
    {
        self.used as usize
    }

    /// Whether it tells a line that has so many bytes with its line feed: then the first eight and the last four are all.
    pub(crate) fn tells(&self, used: usize) -> bool
        ensures used { result ≡ true → used ≡ self.now.used }
        ensures few { result ≡ true → used ≤ MOST_TOLD }
    {
        used == self.used() && used <= MOST_TOLD
    }

    #[inline(always)]
    pub(crate) fn is_same(&self, other: &Front) -> bool
        ensures { result ≡ true → self.now ≡ other.now }
    {
        self.head == other.head && self.last == other.last && self.used == other.used
    }

    /// The front as a number whose highest bits few others have. Lines differ in the low bits of their bytes, so the last bytes are put
    /// where these come upon high bits of the first ones.
    #[inline(always)]
    pub(crate) fn mixed(&self) -> u64 {
        (self.head ^ u64::from(self.last) << 29).wrapping_mul(0x9e37_79b9_7f4a_7c15)
    }
}
