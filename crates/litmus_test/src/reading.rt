//! The whole test.

ghost use Rattle.std.specs.Prelude.{◌≡◌, IfOk};
ghost use Rattle.litmus_model.specs.Kept.{test_from};
ghost use Rattle.litmus_model.specs.Sound.{IsSound};
ghost use Rattle.litmus_model.specs.Test.{test_in, test_of};
ghost use Rattle.litmus_text.specs.Kept.{sections_from};
ghost use Rattle.litmus_text.specs.Reads.{Reads};
ghost use Rattle.litmus_read.specs.Final.{final_from};
ghost use Rattle.litmus_read.specs.Kept.{IsKept, program_from};
ghost use Rattle.litmus_test.specs.Whole.{test_with};

use crate::locations::locations_of;
use crate::observed::observed_targets;
use elf_load::of_ddm_types::NoMemory;
use litmus_model::{Given, Test, TestRefusal};
use litmus_read::{Final, Program, read_final, read_init, read_program};
use litmus_text::{Sections, Unread, sections_of};
use std::alloc::Global;

/// How many bytes a file may have.
const MOST_BYTES: usize = 65_536;

/// How many there are. There is no memory for 2^32 of them.
fn counted(count: usize) -> Result<u32, NoMemory>
    ensures { IfOk result (λ number. number ≡ count) }
{
    if count > 4_294_967_295 {
        Err(NoMemory)
    } else {
        Ok(count as u32)
    }
}

/// The test of these parts, unless too much is observed or named.
#[tactic(auto, using(crate::proofs::Sounds::is_sound), // of all parts
unfolding(litmus_model::specs::Test::judged_test, litmus_model::specs::Test::names_in, litmus_model::specs::Test::observed_targets))]
fn judged_test(
    alloc: Global,
    name: Vec<u8>,
    program: Program,
    init: Vec<Given>,
    last: Final,
) -> Result<Test, Unread>
    requires { IsKept 256 0 program.steps.items }
    ensures test { Reads test_from (test_with name.items (program_from program) init.items (final_from last)) result }
    ensures sound { IfOk result (λ test. IsSound (test_from test)) }
{
    let observed = observed_targets(alloc, &last.named, &last.chunks)?;
    let locations = locations_of(alloc, &init, &last.named, &last.chunks)?;
    let targets = counted(observed.len())?;
    let names = counted(locations.len())?;
    if targets > 64 {
        return Err(Unread::Refused(TestRefusal::TooManyObserved(targets)));
    }
    if names > 256 {
        return Err(Unread::Refused(TestRefusal::TooManyLocations(names)));
    }
    Ok(Test {
        name,
        threads: program.threads,
        program: program.steps,
        init,
        quantifier: last.quantifier,
        chunks: last.chunks,
        observed,
        locations,
    })
}

/// The test of these sections.
#[tactic(auto, unfolding(litmus_model::specs::Test::test_in, litmus_model::specs::Refusing::and_then))]
fn test_in(alloc: Global, sections: Sections) -> Result<Test, Unread>
    ensures test { Reads test_from (test_in (sections_from sections)) result }
    ensures sound { IfOk result (λ test. IsSound (test_from test)) }
{
    let program = read_program(alloc, sections.condition_line, &sections.program)?;
    let init = read_init(alloc, program.threads, sections.closing, &sections.init)?;
    let last = read_final(alloc, program.threads, sections.end, &sections.last)?;
    judged_test(alloc, sections.name, program, init, last)
}

/// What the bytes of a file say.
#[tactic(auto, unfolding(litmus_model::specs::Test::test_of, litmus_model::specs::Refusing::and_then))]
pub fn read_test(alloc: Global, bytes: &[u8]) -> Result<Test, Unread>
    ensures test { Reads test_from (test_of bytes.now) result }
    ensures sound { IfOk result (λ test. IsSound (test_from test)) }
{
    if bytes.len() > MOST_BYTES {
        return Err(Unread::Refused(TestRefusal::TooLong));
    }
    let sections = sections_of(alloc, bytes)?;
    test_in(alloc, sections)
}
