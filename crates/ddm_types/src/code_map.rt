//! The code of an image, by address.

ghost use Rattle.std.specs.Prelude.{◌≡◌, ◌%◌, ◌^◌, ◌≤◌, All, AllPairs, IfOk};
ghost use Rattle.std.specs.List.{flat_map};
ghost use Rattle.ddm_types.specs.CodeMap.{AreDisjoint, IsCodeOf, code_of, part_end, part_words, word_at};

use crate::numbers::NoMemory;
use std::alloc::Global;
use std::marker::Model;

/// Words of code that lie one behind the other.
#[derive(Drop)]
pub struct CodePart {
    /// The address of the first word.
    pub start: u32,
    pub words: Vec<u32>,
}

/// The code of an image. A contract sees it as the list of its words with their addresses, in order of
/// address.
#[derive(Drop)]
pub struct Code {
    parts: Vec<CodePart>,
}

impl Model for Code {
    ghost use Rattle.std.specs.Prelude.{List};
    ghost use Rattle.std.specs.List.{flat_map};
    ghost use Rattle.ddm_types.specs.CodeMap.{CodeWord, part_words, AreInOrder};

    ghost Value = { List CodeWord };

    ghost view = { λ code. flat_map part_words code.parts.items };

    ghost invariant = { λ code. AreInOrder code.parts.items };
}

impl Code {
    /// The code that has the words of these parts, which it keeps.
    pub fn from_parts(_alloc: Global, mut parts: Vec<CodePart>) -> Result<Code, NoMemory>
        requires aligned { All (λ part. part.start % 4 ≡ 0) parts.items }
        requires ends { All (λ part. part_end part ≤ 2 ^ 32) parts.items }
        requires disjoint { AllPairs AreDisjoint parts.items }
        ensures code { IfOk result (λ code. code ≡ code_of (flat_map part_words parts.items)) }
        ensures rule { IfOk result (IsCodeOf (flat_map part_words parts.items)) }
    {
        parts.retain(|part| !part.words.is_empty());
        parts.sort_by_key(|part| part.start)?;
        Ok(Code { parts })
    }

    /// The word at this address.
    pub fn word_at(&self, pc: u32) -> Option<u32>
        ensures { result ≡ word_at self.now pc }
    {
        let after = self.parts.partition_point(|part| part.start <= pc);
        if after == 0 {
            return None;
        }
        let part = &self.parts[after - 1];
        let offset = pc - part.start;
        if offset % 4 != 0 {
            return None;
        }
        part.words.get((offset / 4) as usize).copied()
    }
}
