//! Keys, effects and operations are read.

ghost use Rattle.std.specs.Prelude.{◌≡◌, ◌<◌, ◌≤◌, ◌^◌, ◌++◌, ◌∷◌, ◌||◌, [], List, Ok, Err, drop, length, nat_eq};
ghost use Rattle.std.specs.Prelude.{nat_le, nat_lt, IfErr, IfOk, if◌then◌else◌};
ghost use Rattle.ddm_tree.specs.DdmTypes.declared.operations.Op.{Op as OpValue};
ghost use Rattle.ddm_tree.specs.StateReading.Gives.{Gives};
ghost use Rattle.ddm_tree.specs.StateReading.Parts.{effect_of, effect_size, read_key, read_op, read_traffic};
ghost use Rattle.ddm_tree.specs.StateReading.Reading.{word_that};

use crate::of_ddm_types::{ChildNo, Effect, HartNo, Key, Op, Stamp};
use crate::of_state_reading::{
    StateRefusal, any_word, count_word, keep, look, word_below, word_if, word_to,
};
use crate::of_tree_model::Traffic;
use crate::turns::key_on;

/// Reads what a bus has granted.
#[tactic(auto, unfolding(crate::specs::Opened::read_traffic))]
pub(crate) fn read_traffic(words: &[u32], at: &mut u32) -> Result<Traffic, StateRefusal>
    requires few { length words.now < 2 ^ 32 }
    requires inside { at.old ≤ length words.now }
    ensures read { Gives (read_traffic at.old (drop at.old words.now)) words.now at.new result }
    ensures inside { at.new ≤ length words.now }
{
    let reads = count_word(words, at)?;
    let copies = count_word(words, at)?;
    let erases = count_word(words, at)?;
    let exclusives = count_word(words, at)?;
    let outs = count_word(words, at)?;
    let injects = count_word(words, at)?;
    Ok(Traffic {
        reads,
        copies,
        erases,
        exclusives,
        outs,
        injects,
    })
}

/// Reads the key of an operation, in a tree of so many levels of buses.
fn read_key(words: &[u32], at: &mut u32, depth: u32) -> Result<Key, StateRefusal>
    requires few { length words.now < 2 ^ 32 }
    requires inside { at.old ≤ length words.now }
    ensures read { Gives (read_key depth at.old (drop at.old words.now)) words.now at.new result }
    ensures inside { at.new ≤ length words.now }
{
    let s0 = word_if(words, at, 0 < depth)?;
    let c0 = word_if(words, at, 0 < depth)?;
    let s1 = word_if(words, at, 1 < depth)?;
    let c1 = word_if(words, at, 1 < depth)?;
    let s2 = word_if(words, at, 2 < depth)?;
    let c2 = word_if(words, at, 2 < depth)?;
    let s3 = word_if(words, at, 3 < depth)?;
    let c3 = word_if(words, at, 3 < depth)?;
    let i = any_word(words, at)?;
    let stamp = Stamp::zero().at_level(0, s0).at_level(1, s1);
    let stamp = stamp.at_level(2, s2).at_level(3, s3);
    let path = [ChildNo(c0), ChildNo(c1), ChildNo(c2), ChildNo(c3)];
    Ok(key_on(stamp, &path, i))
}

/// How many numbers an effect has, by its own number, 0 to 7.
fn effect_size(code: u32) -> u32
    requires { code ≤ 7 }
    ensures { result ≡ effect_size code }
{
    match code {
        1 | 6 => 1,
        2 | 4 => 2,
        3 | 5 | 7 => 3,
        _ => 0,
    }
}

/// What an instruction did, by its number, 0 to 7, and the numbers that belong to it.
fn effect_of(code: u32, a: u32, b: u32, c: u32) -> Effect
    requires code { code ≤ 7 }
    requires byte { code ≡ 1 → a ≤ 255 }
    ensures { result ≡ effect_of code a b c }
{
    match code {
        1 => Effect::Put { byte: a as u8 },
        2 => Effect::Load {
            address: a,
            word: b,
        },
        3 => Effect::Store {
            address: a,
            before: b,
            after: c,
        },
        4 => Effect::Lr {
            address: a,
            word: b,
        },
        5 => Effect::ScOk {
            address: a,
            before: b,
            after: c,
        },
        6 => Effect::ScFail { address: a },
        7 => Effect::Amo {
            address: a,
            before: b,
            after: c,
        },
        _ => Effect::Plain,
    }
}

/// The next word, the first number of an effect.
fn first_number(words: &[u32], at: &mut u32, code: u32) -> Result<u32, StateRefusal>
    requires few { length words.now < 2 ^ 32 }
    requires inside { at.old ≤ length words.now }
    requires code { code ≤ 7 }
    ensures read { Gives
        (word_that (λ w. if nat_eq code 1 then nat_le w 255 else (nat_lt 0 (effect_size code) || nat_eq w 0))
        at.old (drop at.old words.now)) words.now at.new result }
    ensures byte { IfOk result (λ w. code ≡ 1 → w ≤ 255) }
    ensures inside { at.new ≤ length words.now }
{
    let word = look(words, *at)?;
    let fits = if code == 1 {
        word <= 255
    } else {
        0 < effect_size(code) || word == 0
    };
    keep(word, fits, at)
}

/// Reads one operation, in a tree of so many levels of buses and so many leaves.
pub(crate) fn read_op(
    words: &[u32],
    at: &mut u32,
    depth: u32,
    leaves: u32,
) -> Result<Op, StateRefusal>
    requires few { length words.now < 2 ^ 32 }
    requires inside { at.old ≤ length words.now }
    ensures read { IfOk result
        (λ o. (ops : List OpValue) →
        read_op depth leaves ops at.old (drop at.old words.now)
        ≡ Ok (record { value = ops ++ o ∷ []; at = at.new; rest = drop at.new words.now })) }
    ensures refused { IfErr result (λ e. (ops : List OpValue) → read_op depth leaves ops at.old (drop at.old words.now) ≡ Err e) }
    ensures inside { at.new ≤ length words.now }
{
    let key = read_key(words, at, depth)?;
    let hart = word_below(words, at, leaves)?;
    let pc = any_word(words, at)?;
    let code = word_to(words, at, 7)?;
    let a = first_number(words, at, code)?;
    let b = word_if(words, at, 1 < effect_size(code))?;
    let c = word_if(words, at, 2 < effect_size(code))?;
    Ok(Op {
        key,
        hart: HartNo(hart),
        pc,
        effect: effect_of(code, a, b, c),
    })
}
