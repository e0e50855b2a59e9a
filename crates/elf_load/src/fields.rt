//! Half words and words of a file.

ghost use Rattle.std.specs.Prelude.{◌≡◌, ◌+◌, ◌≤◌, length};
ghost use Rattle.elf_load.specs.ElfFile.{half_at, word_in};

use byteorder::{ByteOrder, LittleEndian};

/// The half word at this place of the file.
pub fn half_at(file: &[u8], place: usize) -> u16
    requires { place + 2 ≤ length file.now }
    ensures { result ≡ half_at file.now place }
{
    LittleEndian::read_u16(&file[place..])
}

/// The word at this place of the file.
pub fn word_in(file: &[u8], place: usize) -> u32
    requires { place + 4 ≤ length file.now }
    ensures { result ≡ word_in file.now place }
{
    LittleEndian::read_u32(&file[place..])
}
