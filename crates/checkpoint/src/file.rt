//! A checkpoint that arrives in pieces, kept as its words.

ghost use Rattle.std.specs.Prelude.{◌≡◌, ◌+◌, ◌*◌, ◌%◌, [], ◌∷◌, ◌++◌, length, IfOk, OnOk};
ghost use Rattle.std.specs.List.{flat_map};
ghost use Rattle.std.specs.Int.{w32, to_le_bytes};
ghost use Rattle.checkpoint.specs.Resumed.{whole_words};
ghost use Rattle.checkpoint.specs.FileBytes.{AreWords, bytes_in, rest_bytes};

use crate::of_ddm_types::NoMemory;
use std::alloc::Global;
use std::marker::Model;

/// The bytes behind the last whole word.
#[derive(Clone, Copy)]
enum Rest {
    Nothing,
    One(u8),
    Two(u8, u8),
    Three(u8, u8, u8),
}

/// A file that is to be read as a checkpoint, fed in pieces of any lengths and kept as its words. A contract sees the bytes so far.
#[derive(Drop)]
pub struct CheckpointFile {
    words: Vec<u32>,
    rest: Rest,
}

impl Model for CheckpointFile {
    ghost use Rattle.std.specs.Prelude.{ℕ, List};

    ghost Value = { List ℕ };

    ghost use Rattle.checkpoint.specs.FileBytes.{AreWords, bytes_in};

    ghost view = { λ file. bytes_in file.words.items file.rest };

    ghost invariant = { λ file. AreWords file.words.items };
}

fn rest_len(rest: Rest) -> usize
    ensures { result ≡ length (rest_bytes rest) }
{
    match rest {
        Rest::Nothing => 0,
        Rest::One(_) => 1,
        Rest::Two(_, _) => 2,
        Rest::Three(_, _, _) => 3,
    }
}

// Puts a byte behind words and the bytes after them.
fn put_byte(words: &mut Vec<u32>, rest: Rest, byte: u8) -> Result<Rest, NoMemory>
    ensures bytes { IfOk result (λ r. bytes_in words.new.items r ≡ bytes_in words.old.items rest ++ byte ∷ []) }
    ensures count { IfOk result (λ r. length (rest_bytes r) ≡ (length (rest_bytes rest) + 1) % 4) }
{
    match rest {
        Rest::Nothing => Ok(Rest::One(byte)),
        Rest::One(a) => Ok(Rest::Two(a, byte)),
        Rest::Two(a, b) => Ok(Rest::Three(a, b, byte)),
        Rest::Three(a, b, c) => {
            words.push(u32::from_le_bytes([a, b, c, byte]))?;
            Ok(Rest::Nothing)
        }
    }
}

// The same for several bytes.
fn put_bytes(words: &mut Vec<u32>, rest: Rest, bytes: &[u8]) -> Result<Rest, NoMemory>
    ensures bytes { IfOk result (λ r. bytes_in words.new.items r ≡ bytes_in words.old.items rest ++ bytes.now) }
    ensures count { IfOk result (λ r. length (rest_bytes r) ≡ (length (rest_bytes rest) + length bytes.now) % 4) }
{
    let mut rest = rest;
    for byte in bytes {
        rest = put_byte(words, rest, *byte)?;
    }
    Ok(rest)
}

// Writes the words of these bytes. They stand in a slice, and not at the end of a `Vec`, so that many are copied at once.
fn write_words(words: &mut [u32], bytes: &[u8])
    requires { 4 * length words.old ≡ length bytes.now }
    ensures { flat_map (to_le_bytes w32) words.new ≡ bytes.now }
{
    for at in 0..words.len() {
        let four = &bytes[4 * at..4 * at + 4];
        words[at] = u32::from_le_bytes([four[0], four[1], four[2], four[3]]);
    }
}

// Puts whole words behind others.
fn put_words(words: &mut Vec<u32>, bytes: &[u8]) -> Result<(), NoMemory>
    requires { length bytes.now % 4 ≡ 0 }
    ensures { OnOk result (flat_map (to_le_bytes w32) words.new.items ≡ flat_map (to_le_bytes w32) words.old.items ++ bytes.now) }
{
    let start = words.len();
    words.resize(start + bytes.len() / 4, 0)?;
    write_words(&mut words[start..], bytes);
    Ok(())
}

// Puts a piece behind words and the bytes after them: what ends the word that was begun, whole words, and the last bytes.
fn put_piece(words: &mut Vec<u32>, rest: Rest, piece: &[u8]) -> Result<Rest, NoMemory>
    ensures bytes { IfOk result (λ r. bytes_in words.new.items r ≡ bytes_in words.old.items rest ++ piece.now) }
    ensures small { OnOk result (AreWords words.new.items) }
{
    let first = piece.len().min((4 - rest_len(rest)) % 4);
    let begun = put_bytes(words, rest, &piece[..first])?;
    let last = piece.len() - (piece.len() - first) % 4;
    put_words(words, &piece[first..last])?;
    put_bytes(words, begun, &piece[last..])
}

impl CheckpointFile {
    /// Before the first byte.
    pub fn new(alloc: Global) -> CheckpointFile
        ensures { result ≡ [] }
    {
        CheckpointFile {
            words: Vec::new(alloc),
            rest: Rest::Nothing,
        }
    }

    /// The file with the next bytes. Where memory is wanting, it is given up.
    pub fn feed(self, piece: &[u8]) -> Result<CheckpointFile, NoMemory>
        ensures { IfOk result (λ file. file ≡ self ++ piece.now) }
    {
        let CheckpointFile { mut words, rest } = self;
        let rest = put_piece(&mut words, rest, piece)?;
        Ok(CheckpointFile { words, rest })
    }

    /// How many bytes there are.
    pub fn len(&self) -> u64
        ensures { result ≡ length self.now }
    {
        let words = self.words.as_slice();
        4 * words.len() as u64 + rest_len(self.rest) as u64
    }

    /// The words of which all four bytes are there.
    pub fn words(&self) -> &[u32]
        ensures { result.now ≡ whole_words self.now }
    {
        &self.words
    }
}
