//! Bytes and half words of a word, the lowest byte first.
ghost use Rattle.std.specs.Prelude.{◌≡◌, ◌+◌, ◌<◌, ◌≤◌};
ghost use Rattle.flat_model.specs.Hart.{byte_in, half_in, load_bytes, loaded_value, store_bytes, stored_word};

use crate::of_rv_decode::{LoadOp, StoreOp};

/// How many bytes a load reads.
pub fn load_bytes(op: LoadOp) -> u32
    ensures { result ≡ load_bytes op }
{
    match op {
        LoadOp::Lb | LoadOp::Lbu => 1,
        LoadOp::Lh | LoadOp::Lhu => 2,
        LoadOp::Lw => 4,
    }
}

/// How many bytes a store writes.
pub fn store_bytes(op: StoreOp) -> u32
    ensures { result ≡ store_bytes op }
{
    match op {
        StoreOp::Sb => 1,
        StoreOp::Sh => 2,
        StoreOp::Sw => 4,
    }
}

fn byte_in(word: u32, place: usize) -> u8
    requires { place < 4 }
    ensures { result ≡ byte_in word place }
{
    word.to_le_bytes()[place]
}

fn half_in(word: u32, place: usize) -> u16
    requires { place < 3 }
    ensures { result ≡ half_in word place }
{
    u16::from_le_bytes([byte_in(word, place), byte_in(word, place + 1)])
}

/// What a load puts into its register, of the aligned word and the byte's place in it.
pub fn loaded_value(op: LoadOp, word: u32, place: usize) -> u32
    requires { place + load_bytes op ≤ 4 }
    ensures { result ≡ loaded_value op word place }
{
    match op {
        LoadOp::Lb => i32::from(byte_in(word, place).cast_signed()).cast_unsigned(),
        LoadOp::Lh => i32::from(half_in(word, place).cast_signed()).cast_unsigned(),
        LoadOp::Lw => word,
        LoadOp::Lbu => u32::from(byte_in(word, place)),
        LoadOp::Lhu => u32::from(half_in(word, place)),
    }
}

/// The aligned word after a store of the register's low bytes at this place.
pub fn stored_word(op: StoreOp, word: u32, place: usize, value: u32) -> u32
    requires { place + store_bytes op ≤ 4 }
    ensures { result ≡ stored_word op word place value }
{
    let mut bytes = word.to_le_bytes();
    match op {
        StoreOp::Sb => bytes[place] = byte_in(value, 0),
        StoreOp::Sh => {
            bytes[place] = byte_in(value, 0);
            bytes[place + 1] = byte_in(value, 1);
        }
        StoreOp::Sw => return value,
    }
    u32::from_le_bytes(bytes)
}
