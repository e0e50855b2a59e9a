//! The text of a witness is read in pieces.

ghost use Rattle.std.specs.Prelude.{◌≡◌, ◌⊎◌, ◌≤◌, ◌+◌, ◌*◌, ℕ, List, ◌++◌, None, Some, IfErr, IfOk, length, take};
ghost use Rattle.text_model.specs.Lines.{Lacks};
ghost use Rattle.witness_check.specs.DdmTypes.ItemTable.{IsItemSize};
ghost use Rattle.witness_check.specs.FlatModel.Flat.{FlatMachine};
ghost use Rattle.witness_check.specs.Judging.{answer_of, going, lines_of, with_byte};
ghost use Rattle.witness_check.specs.Start.{start_refusal};
ghost use Rattle.witness_check.specs.Reader.{begun, fed, feed_answer, setting, with_standing, IsAtLineEnd};
ghost use Rattle.witness_check.specs.declared.refusal.CheckRefusal.TheVariants as refusal;

use crate::judge::Judge;
use crate::lines::op_of_line;
use crate::of_ddm_types::Start;
use crate::of_elf_load::Image;
use crate::places::place_of;
use crate::refusal::CheckRefusal;
use std::alloc::Global;
use std::marker::Model;

/// The most bytes of a line before its line feed.
const MOST_BYTES: usize = 160;

/// The most lines of a text.
const MOST_LINES: u32 = 1_048_576;

/// The most bytes of a text.
const MOST_TEXT: u32 = 168_820_736;

/// Reads the text of a witness, in pieces of any lengths, and holds no more of it than a line. A contract sees the program,
/// how many bytes came, and how the text stands.
#[derive(Drop)]
pub struct WitnessReader {
    judge: Judge,
    line: [u8; MOST_BYTES],
    len: usize,
    made: u32,
    size: u32,
    refusal: Option<CheckRefusal>,
}

impl Model for WitnessReader {
    ghost use Rattle.std.specs.Prelude.{take};
    ghost use Rattle.witness_check.specs.Reader.{IsReader, ReaderView, standing_by};

    ghost Value = { ReaderView };

    ghost view = { λ r. record {
      program = r.judge.program;
      size = r.size;
      standing = standing_by r.refusal r.judge.machine r.made (take r.len r.line);
    } };

    ghost invariant = { λ r. IsReader r.len r.made r.size };
}

// Puts bytes behind the first ones of a line.
fn put_part(line: &mut [u8; MOST_BYTES], len: usize, part: &[u8])
    requires { len + length part.now ≤ 160 }
    ensures { take (len + length part.now) line.new ≡ take len line.old ++ part.now }
{
    line[len..len + part.len()].copy_from_slice(part);
}

impl WitnessReader {
    /// Before the first byte of a text, where the image and the harts' stacks have a start. All memory is taken here.
    pub fn new(
        alloc: Global,
        image: &Image,
        start: Start,
        item_bytes: u32,
    ) -> Result<WitnessReader, CheckRefusal>
        requires size { IsItemSize item_bytes }
        requires harts { start.harts ≤ 64 }
        requires stacks { start.stack_base + start.harts * start.stack_bytes ≤ 4294967280 }
        ensures begun { IfOk result (λ reader. reader ≡ begun (setting image.now start item_bytes)) }
        ensures accepted { IfOk result (λ reader. start_refusal (setting image.now start item_bytes) ≡ None) }
        ensures refused { IfErr result (λ r. (r ≡ refusal.NoMemory) ⊎ (start_refusal (setting image.now start item_bytes) ≡ Some r)) }
    {
        Ok(WitnessReader {
            judge: Judge::new(alloc, image, start, item_bytes)?,
            line: [0; MOST_BYTES],
            len: 0,
            made: 0,
            size: 0,
            refusal: None,
        })
    }

    // The line feed of a line of these bytes, whether or not they are kept.
    #[tactic(auto, unfolding(crate::specs::Judging::with_byte))]
    fn end_line(&mut self, line: &[u8])
        requires { IsAtLineEnd self.old.standing }
        ensures { (machine : FlatMachine) (made : ℕ) (kept : List ℕ) → self.old.standing ≡ going machine made kept
            → self.new ≡ with_standing (with_byte self.old.program (going machine made line.now) 10) self.old }
    {
        match op_of_line(line) {
            None => self.refusal = Some(CheckRefusal::BadLine(self.made + 1)),
            Some(op) => {
                if self.judge.step(&op) {
                    self.made += 1;
                    self.len = 0;
                } else {
                    self.refusal = Some(CheckRefusal::NotLegal(self.made + 1));
                }
            }
        }
    }

    // The line feed where a line may end, or may not, behind bytes that are kept. It isn't for lines that are whole, and stands
    // apart from them, since it copies the line.
    #[inline(never)]
    #[tactic(auto, unfolding(crate::specs::Judging::with_byte))]
    fn take_line_feed(&mut self)
        ensures { self.new ≡ with_standing (with_byte self.old.program self.old.standing 10) self.old }
    {
        if self.refusal.is_some() {
            return;
        }
        if self.made >= MOST_LINES {
            self.refusal = Some(CheckRefusal::TooManyLines(self.made + 1));
        } else {
            let line = self.line;
            let len = self.len;
            self.end_line(&line[..len]);
        }
    }

    // Bytes of a line, behind those that are there.
    fn take_part(&mut self, part: &[u8])
        requires { Lacks 10 part.now }
        ensures { self.new ≡ with_standing (lines_of self.old.program self.old.standing part.now) self.old }
    {
        if self.refusal.is_some() {
            return;
        }
        if part.is_empty() {
            return;
        }
        if self.made >= MOST_LINES {
            self.refusal = Some(CheckRefusal::TooManyLines(self.made + 1));
        } else if part.len() > MOST_BYTES - self.len {
            self.refusal = Some(CheckRefusal::BadLine(self.made + 1));
        } else {
            put_part(&mut self.line, self.len, part);
            self.len += part.len();
        }
    }

    // A line that is whole, with its line feed. Where it begins here it is judged where it lies.
    fn take_line(&mut self, line: &[u8])
        requires { Lacks 10 line.now }
        ensures { self.new ≡ with_standing (with_byte self.old.program (lines_of self.old.program self.old.standing line.now) 10) self.old }
    {
        if self.len == 0
            && self.made < MOST_LINES
            && line.len() <= MOST_BYTES
            && self.refusal.is_none()
        {
            self.end_line(line);
        } else {
            self.take_part(line);
            self.take_line_feed();
        }
    }

    // What a call answers after which the text stands so.
    fn feed_answer(&self) -> Result<(), CheckRefusal>
        ensures { result ≡ feed_answer self.now.standing }
    {
        match self.refusal {
            Some(CheckRefusal::TooLong) => Err(CheckRefusal::TooLong),
            _ => Ok(()),
        }
    }

    // Reads bytes that don't make the text too long.
    fn take_bytes(&mut self, piece: &[u8])
        ensures { self.new ≡ with_standing (lines_of self.old.program self.old.standing piece.now) self.old }
    {
        let mut from = 0;
        'lines: loop {
            let rest = &piece[from..];
            match place_of(b'\n', rest) {
                None => {
                    self.take_part(rest);
                    return;
                }
                Some(end) => {
                    self.take_line(&rest[..end]);
                    from += end + 1;
                }
            }
        }
    }

    /// Reads the next piece of the text. It takes no memory. The answer is an error exactly where the text so far is too
    /// long, which is its first refusal; every other one is answered by `finish`, since the text may still become too long.
    #[tactic(auto, unfolding(crate::specs::Reader::fed))]
    pub fn feed(&mut self, piece: &[u8]) -> Result<(), CheckRefusal>
        ensures reader { self.new ≡ fed self.old piece.now }
        ensures answer { result ≡ feed_answer self.new.standing }
    {
        if piece.len() > (MOST_TEXT - self.size) as usize {
            self.size = MOST_TEXT;
            self.refusal = Some(CheckRefusal::TooLong);
            return Err(CheckRefusal::TooLong);
        }
        self.size += piece.len() as u32;
        self.take_bytes(piece);
        self.feed_answer()
    }

    /// The text ends here: the number of its lines, or its first refusal.
    pub fn finish(self) -> Result<u32, CheckRefusal>
        ensures { result ≡ answer_of self.standing }
    {
        match self.refusal {
            Some(refusal) => Err(refusal),
            None if self.len == 0 => Ok(self.made),
            None => Err(CheckRefusal::BadLine(self.made + 1)),
        }
    }
}
