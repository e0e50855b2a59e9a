//! A checkpoint is judged, and gives a machine.

ghost use Rattle.std.specs.Prelude.{◌≡◌, ◌≢◌, ◌+◌, ◌*◌, ◌<◌, ◌≤◌, ◌^◌, ℕ, List, ◌∷◌, None, Some, Ok, Err, false};
ghost use Rattle.std.specs.Prelude.{drop, length, slice_index, IfOk, IfErr, OnOk, nat_lt};
ghost use Rattle.checkpoint.specs.TreeModel.State.Shape.{frame_of};
ghost use Rattle.checkpoint.specs.AnyMachine.Any.{machine_state};
ghost use Rattle.checkpoint.specs.AnyMachine.Kind.{kind_of};
ghost use Rattle.checkpoint.specs.AnyRuns.Run.{AreBelow};
ghost use Rattle.checkpoint.specs.Resumed.{bad_count, bad_head, bad_name, counts_in, file_refusal, judged_head};
ghost use Rattle.checkpoint.specs.Resumed.{other_machine, resumed, size_words, whole_words};
ghost use Rattle.checkpoint.specs.declared.ResumeRefusal.TheVariants as refusal;

use crate::ResumeRefusal;
use crate::file::CheckpointFile;
use crate::of_any_machine::{AnyMachine, release};
use crate::of_state_reading::{MOST_COUNTED, StateRefusal};
use crate::of_state_words::MachineSizes;
use crate::of_text_model::RunCounts;
use any_states::{read_state, sizes};
use std::alloc::Global;

/// The most bytes of a checkpoint that are read.
pub const MOST_BYTES: u64 = 536_870_912;

/// The number of the first word of a state, behind those of the head.
const STATE: u32 = 11;

/// A word, 0 behind the last one.
fn word_or_zero(words: &[u32], at: usize) -> u32
    ensures { result ≡ slice_index words.now at }
{
    if at < words.len() { words[at] } else { 0 }
}

/// Judges the name and the version of a file that isn't too long.
fn judge_name(bytes: u64, words: &[u32]) -> Result<(), ResumeRefusal>
    requires { nat_lt 536870912 bytes ≡ false }
    ensures ok { OnOk result (bad_name bytes words.now ≡ None) }
    ensures refused { IfErr result (λ r. bad_name bytes words.now ≡ Some r) }
{
    if bytes < 8 || word_or_zero(words, 0) != 0x434d_4444 {
        return Err(ResumeRefusal::NotCheckpoint);
    }
    let version = word_or_zero(words, 1);
    if version != 1 {
        return Err(ResumeRefusal::WrongVersion(version));
    }
    Ok(())
}

/// The word there has to be this number of the machine.
fn judge_size(words: &[u32], at: u32, number: u32) -> Result<(), ResumeRefusal>
    requires { at < 11 }
    ensures ok { OnOk result
        ((ns : List ℕ) →
        other_machine (number ∷ ns) at (drop at words.now)
        ≡ other_machine ns (at + 1) (drop (at + 1) words.now)) }
    ensures refused { IfErr result (λ r. (ns : List ℕ) → other_machine (number ∷ ns) at (drop at words.now) ≡ Some r) }
{
    let Some(word) = words.get(at as usize) else {
        return Err(ResumeRefusal::Cut(at));
    };
    if *word != number {
        return Err(ResumeRefusal::OtherMachine(at));
    }
    Ok(())
}

/// The words of the head that say what the machine is.
fn judge_sizes(words: &[u32], sizes: MachineSizes) -> Result<(), ResumeRefusal>
    ensures ok { OnOk result (other_machine (size_words sizes) 2 (drop 2 words.now) ≡ None) }
    ensures refused { IfErr result (λ r. other_machine (size_words sizes) 2 (drop 2 words.now) ≡ Some r) }
{
    let numbers = [
        sizes.leaves,
        sizes.buses,
        sizes.items,
        sizes.item_words,
        sizes.ways,
    ];
    let mut at = 2;
    for number in &numbers {
        match judge_size(words, at, *number) {
            Ok(()) => at += 1,
            Err(refusal) => return Err(refusal),
        }
    }
    Ok(())
}

/// The count that the word there is.
fn count_at(words: &[u32], at: u32) -> Result<u32, ResumeRefusal>
    requires { at < 11 }
    ensures is { IfOk result (λ n. n ≡ slice_index words.now at) }
    ensures few { IfOk result (λ n. n < 1048577) }
    ensures inside { OnOk result (at < length words.now) }
    ensures ok { OnOk result (bad_count at (drop at words.now) ≡ None) }
    ensures refused { IfErr result (λ r. bad_count at (drop at words.now) ≡ Some r) }
{
    let Some(word) = words.get(at as usize) else {
        return Err(ResumeRefusal::Cut(at));
    };
    if *word > MOST_COUNTED {
        return Err(ResumeRefusal::BadWord(at));
    }
    Ok(*word)
}

/// Judges the head of a file for a machine of these sizes: what the turns before came to.
fn judge_head(words: &[u32], sizes: MachineSizes) -> Result<RunCounts, ResumeRefusal>
    ensures counts { IfOk result (λ counts. counts ≡ counts_in words.now) }
    ensures few { IfOk result (AreBelow 1048577) }
    ensures whole { OnOk result (10 < length words.now) }
    ensures ok { OnOk result (bad_head sizes words.now ≡ None) }
    ensures refused { IfErr result (λ r. bad_head sizes words.now ≡ Some r) }
{
    judge_sizes(words, sizes)?;
    let turns = count_at(words, 7)?;
    let retired = count_at(words, 8)?;
    let granted = count_at(words, 9)?;
    let busy = count_at(words, 10)?;
    Ok(RunCounts {
        turns,
        retired,
        granted,
        busy,
    })
}

fn file_refusal(refusal: StateRefusal) -> ResumeRefusal
    ensures { result ≡ file_refusal refusal }
{
    match refusal {
        StateRefusal::Cut(word) => ResumeRefusal::Cut(word),
        StateRefusal::BadWord(word) => ResumeRefusal::BadWord(word),
        StateRefusal::BrokenLeaf(leaf) => ResumeRefusal::BrokenLeaf(leaf),
        StateRefusal::BrokenRule { bus, item } => ResumeRefusal::BrokenRule { bus, item },
        StateRefusal::BrokenStamp(bus) => ResumeRefusal::BrokenStamp(bus),
        StateRefusal::BrokenKey(op) => ResumeRefusal::BrokenKey(op),
        StateRefusal::NoMemory => ResumeRefusal::NoMemory,
    }
}

/// Judges the length, the name and the head of a file for a machine of these sizes: what the turns before came to.
fn judge_file(sizes: MachineSizes, file: &CheckpointFile) -> Result<RunCounts, ResumeRefusal>
    ensures counts { IfOk result (λ r. r ≡ counts_in (whole_words file.now)) }
    ensures few { IfOk result (AreBelow 1048577) }
    ensures whole { OnOk result (10 < length (whole_words file.now)) }
    ensures short { OnOk result (length file.now ≤ 536870912) }
    ensures ok { OnOk result (judged_head sizes file.now ≡ None) }
    ensures refused { IfErr result (λ e. judged_head sizes file.now ≡ Some e) }
{
    if file.len() > MOST_BYTES {
        return Err(ResumeRefusal::TooLong);
    }
    judge_name(file.len(), file.words())?;
    judge_head(file.words(), sizes)
}

/// The machine of a checkpoint, read into one before its first turn of the same tree and image, and what its turns came to.
pub fn resume(
    alloc: Global,
    fresh: AnyMachine,
    file: &CheckpointFile,
) -> Result<(AnyMachine, RunCounts), ResumeRefusal>
    ensures ok { IfOk result
        (λ r. resumed (machine_state fresh).machine file.now
        ≡ Ok (record { machine = (machine_state r.0).machine; counts = r.1 })) }
    ensures few { IfOk result (λ r. AreBelow 1048577 r.1) }
    ensures spare { IfOk result (λ r. (machine_state r.0).spare ≡ 0) }
    ensures turns { IfOk result (λ r. (machine_state r.0).turns ≡ 1048576) }
    ensures kind { IfOk result (λ r. kind_of r.0 ≡ kind_of fresh) }
    ensures frame { IfOk result (λ r. frame_of (machine_state r.0).machine ≡ frame_of (machine_state fresh).machine) }
    ensures refused { IfErr result (λ e. e ≢ refusal.NoMemory → resumed (machine_state fresh).machine file.now ≡ Err e) }
{
    let counts = match judge_file(sizes(&fresh), file) {
        Ok(counts) => counts,
        Err(refusal) => {
            release(fresh);
            return Err(refusal);
        }
    };
    match read_state(alloc, fresh, file.words(), STATE) {
        Ok((machine, at)) => {
            if 4 * u64::from(at) < file.len() {
                release(machine);
                return Err(ResumeRefusal::AfterEnd);
            }
            Ok((machine, counts))
        }
        Err(refusal) => Err(file_refusal(refusal)),
    }
}
