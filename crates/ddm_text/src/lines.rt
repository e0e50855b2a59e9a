//! Lines of a text.

ghost use Rattle.std.specs.Prelude.{◌≡◌, ◌≤◌, drop, length, position};
ghost use Rattle.ddm_text.specs.Lines.{first_line, is_line_feed};

/// The next line of a text.
#[derive(Clone, Copy, Debug, PartialEq, Eq)]
pub enum LineCut {
    /// Its number of bytes before its line feed.
    Line(usize),
    /// More bytes than the limit are there before a line feed.
    LineTooLong,
    /// No line feed follows, and no more bytes than the limit are there.
    NoEndOfLine,
}

fn line_feed(text: &[u8]) -> Option<usize>
    ensures { result ≡ position is_line_feed text.now }
{
    text.iter().position(|byte| *byte == b'\n')
}

/// Finds the end of the line that begins at `from`, which may have `most` bytes before its line feed.
#[tactic(auto, unfolding(crate::specs::Lines::first_line))]
pub fn cut_line(bytes: &[u8], from: usize, most: usize) -> LineCut
    requires { from ≤ length bytes.now }
    ensures { result ≡ first_line (drop from bytes.now) most }
{
    let text = &bytes[from..];
    if text.len() <= most {
        match line_feed(text) {
            Some(place) => LineCut::Line(place),
            None => LineCut::NoEndOfLine,
        }
    } else {
        match line_feed(&text[..most + 1]) {
            Some(place) => LineCut::Line(place),
            None => LineCut::LineTooLong,
        }
    }
}
