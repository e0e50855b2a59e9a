//! The words of a command are read.

ghost use Rattle.std.specs.Prelude.{◌≡◌, ◌≤◌, ◌<◌, ◌*◌, ◌+◌, map, length, Err, IfOk, IfSome, IsOk, MatchResult, None};
ghost use Rattle.std.specs.Prelude.{Ok, Some, option_and_then, slice_get};
ghost use Rattle.std.specs.String.{string_bytes};
ghost use Rattle.ddm_words.specs.Commands.{IsInRange, about_named, command_of, ends_at, file_check, file_page};
ghost use Rattle.ddm_words.specs.Commands.{file_resume, file_run, help_alone, help_asked, help_of_two, help_said};
ghost use Rattle.ddm_words.specs.Commands.{help_topic, is_all, kind_named, made_run, named_command, number_in, placed_assembly};
ghost use Rattle.ddm_words.specs.Commands.{places_said, runs_survey, test_assembly};
ghost use Rattle.ddm_words.specs.Commands.{seed_list, seed_measure, seed_record, seed_run, seeds_survey, tables_named};
ghost use Rattle.ddm_words.specs.Commands.{to_say, word_at};
ghost use Rattle.ddm_words.specs.Views.{command_from, placing_from};

use crate::command::{
    About, Assembly, Check, Command, ImageSource, Paged, Placing, Prints, Recorded, Resumption,
    Run, Seeds, Survey, TurnSource,
};
use crate::of_litmus_files::{Runs, read_places};
use ddm_text::read_decimal;
use recording_model::SeedKind;

const MOST_TURNS: u64 = 1_048_576;

const MOST_MEASURED: u64 = 1_000_000_000;

const MOST_ROUNDS: u64 = 50_000;

const MOST_SEEDS: u64 = 1_000_000;

const MOST_TABLES: usize = 256;

/// The number that a word spells, if it is at least and at most so much.
#[tactic(auto, unfolding(crate::specs::Commands::number_in))]
fn number_in(word: &str, least: u64, most: u64) -> Option<u64>
    ensures number { result ≡ number_in least most word.now }
    ensures least { IfSome result (λ n. least ≤ n) }
    ensures most { IfSome result (λ n. n ≤ most) }
{
    match read_decimal(word.as_bytes(), most) {
        Ok(n) if least <= n => Some(n),
        _ => None,
    }
}

/// The word at an index, or this index where there is none.
fn word(words: &[String], k: usize) -> Result<&str, u32>
    requires { k ≤ 6 }
    ensures { MatchResult result
        (λ word. slice_get (map string_bytes words.now) k ≡ Some word.now)
        (λ at. (at ≡ k) × (slice_get (map string_bytes words.now) k ≡ None)) }
{
    match words.get(k) {
        Some(word) => Ok(word.as_str()),
        None => Err(k as u32),
    }
}

/// The number that the word there spells.
fn number(words: &[String], k: usize, least: u64, most: u64) -> Result<u64, u32>
    requires { k ≤ 6 }
    ensures is { MatchResult result
        (λ n. option_and_then (number_in least most) (slice_get (map string_bytes words.now) k) ≡ Some n)
        (λ at. (at ≡ k) × (option_and_then (number_in least most) (slice_get (map string_bytes words.now) k) ≡ None)) }
    ensures least { IfOk result (λ n. least ≤ n) }
    ensures most { IfOk result (λ n. n ≤ most) }
{
    number_in(word(words, k)?, least, most).ok_or(k as u32)
}

/// A number of at most 32 bits.
fn small_number(words: &[String], k: usize, least: u64, most: u64) -> Result<u32, u32>
    requires index { k ≤ 6 }
    requires small { most ≤ 4294967295 }
    ensures is { MatchResult result
        (λ n. option_and_then (number_in least most) (slice_get (map string_bytes words.now) k) ≡ Some n)
        (λ at. (at ≡ k) × (option_and_then (number_in least most) (slice_get (map string_bytes words.now) k) ≡ None)) }
    ensures least { IfOk result (λ n. least ≤ n) }
    ensures most { IfOk result (λ n. n ≤ most) }
{
    Ok(number(words, k, least, most)? as u32)
}

/// `run IMAGE TREE SCHEDULE`, and so `trace`, `unjam` and `save`.
#[tactic(auto, unfolding(crate::specs::Commands::file_run))]
fn file_run(words: &[String], prints: Prints) -> Result<Command<'_>, u32>
    ensures is { MatchResult result
        (λ c. file_run prints (map string_bytes words.now) ≡ Ok (command_from c))
        (λ k. file_run prints (map string_bytes words.now) ≡ Err k) }
    ensures range { IfOk result (λ c. IsInRange (command_from c)) }
{
    let image = word(words, 1)?;
    let tree = word(words, 2)?;
    let schedule = word(words, 3)?;
    if words.len() > 4 {
        return Err(4);
    }
    Ok(Command::Run(
        prints,
        Run {
            image: ImageSource::File(image),
            tree,
            turns: TurnSource::File(schedule),
        },
    ))
}

/// `seed IMAGE TREE SEED TURNS`.
#[tactic(auto, unfolding(crate::specs::Commands::seed_run))]
fn seed_run(words: &[String]) -> Result<Command<'_>, u32>
    ensures is { MatchResult result
        (λ c. seed_run (map string_bytes words.now) ≡ Ok (command_from c))
        (λ k. seed_run (map string_bytes words.now) ≡ Err k) }
    ensures range { IfOk result (λ c. IsInRange (command_from c)) }
{
    let image = word(words, 1)?;
    let tree = word(words, 2)?;
    let seed = number(words, 3, 0, u64::MAX)?;
    let count = small_number(words, 4, 0, MOST_TURNS)?;
    if words.len() > 5 {
        return Err(5);
    }
    Ok(Command::Run(
        Prints::Report,
        Run {
            image: ImageSource::File(image),
            tree,
            turns: TurnSource::Seeded { seed, count },
        },
    ))
}

/// `schedule TREE SEED TURNS`.
#[tactic(auto, unfolding(crate::specs::Commands::seed_list))]
fn seed_list(words: &[String]) -> Result<Command<'_>, u32>
    ensures is { MatchResult result
        (λ c. seed_list (map string_bytes words.now) ≡ Ok (command_from c))
        (λ k. seed_list (map string_bytes words.now) ≡ Err k) }
    ensures range { IfOk result (λ c. IsInRange (command_from c)) }
{
    let tree = word(words, 1)?;
    let seed = number(words, 2, 0, u64::MAX)?;
    let count = small_number(words, 3, 0, MOST_TURNS)?;
    if words.len() > 4 {
        return Err(4);
    }
    Ok(Command::List { tree, seed, count })
}

/// `make SEED ROUNDS TREE`.
#[tactic(auto, unfolding(crate::specs::Commands::made_run))]
fn made_run(words: &[String]) -> Result<Command<'_>, u32>
    ensures is { MatchResult result
        (λ c. made_run (map string_bytes words.now) ≡ Ok (command_from c))
        (λ k. made_run (map string_bytes words.now) ≡ Err k) }
    ensures range { IfOk result (λ c. IsInRange (command_from c)) }
{
    let seed = number(words, 1, 0, u64::MAX)?;
    let rounds = small_number(words, 2, 1, MOST_ROUNDS)?;
    let tree = word(words, 3)?;
    if words.len() > 4 {
        return Err(4);
    }
    let count = 20 * rounds + 1000;
    Ok(Command::Run(
        Prints::Summary,
        Run {
            image: ImageSource::Made { seed, rounds },
            tree,
            turns: TurnSource::Seeded { seed, count },
        },
    ))
}

/// `check IMAGE TREE WITNESS`.
#[tactic(auto, unfolding(crate::specs::Commands::file_check))]
fn file_check(words: &[String]) -> Result<Command<'_>, u32>
    ensures is { MatchResult result
        (λ c. file_check (map string_bytes words.now) ≡ Ok (command_from c))
        (λ k. file_check (map string_bytes words.now) ≡ Err k) }
    ensures range { IfOk result (λ c. IsInRange (command_from c)) }
{
    let image = word(words, 1)?;
    let tree = word(words, 2)?;
    let witness = word(words, 3)?;
    if words.len() > 4 {
        return Err(4);
    }
    Ok(Command::Check(Check {
        image,
        tree,
        witness,
    }))
}

/// `resume IMAGE TREE CHECKPOINT SCHEDULE`.
#[tactic(auto, unfolding(crate::specs::Commands::file_resume))]
fn file_resume(words: &[String]) -> Result<Command<'_>, u32>
    ensures is { MatchResult result
        (λ c. file_resume (map string_bytes words.now) ≡ Ok (command_from c))
        (λ k. file_resume (map string_bytes words.now) ≡ Err k) }
    ensures range { IfOk result (λ c. IsInRange (command_from c)) }
{
    let image = word(words, 1)?;
    let tree = word(words, 2)?;
    let checkpoint = word(words, 3)?;
    let schedule = word(words, 4)?;
    if words.len() > 5 {
        return Err(5);
    }
    Ok(Command::Resume(Resumption {
        image,
        tree,
        checkpoint,
        schedule,
    }))
}

/// `outcomes IMAGE TREE FIRST COUNT TURNS`.
#[tactic(auto, unfolding(crate::specs::Commands::seeds_survey))]
fn seeds_survey(words: &[String]) -> Result<Command<'_>, u32>
    ensures is { MatchResult result
        (λ c. seeds_survey (map string_bytes words.now) ≡ Ok (command_from c))
        (λ k. seeds_survey (map string_bytes words.now) ≡ Err k) }
    ensures range { IfOk result (λ c. IsInRange (command_from c)) }
{
    let image = word(words, 1)?;
    let tree = word(words, 2)?;
    let first = number(words, 3, 0, u64::MAX)?;
    let most = (MOST_SEEDS - 1).min(u64::MAX - first) + 1;
    let count = small_number(words, 4, 1, most)?;
    let turns = small_number(words, 5, 0, MOST_TURNS)?;
    if words.len() > 6 {
        return Err(6);
    }
    Ok(Command::Outcomes(Seeds {
        image,
        tree,
        first,
        count,
        turns,
    }))
}

/// The kind of a seed that a word says.
#[tactic(auto, unfolding(crate::specs::Commands::kind_named))]
fn kind_named(word: &str) -> Option<SeedKind>
    ensures { result ≡ kind_named word.now }
{
    match word {
        "even" => Some(SeedKind::Even),
        "skewed" => Some(SeedKind::Skewed),
        _ => None,
    }
}

/// The kind that the word there says.
fn kind_at(words: &[String], k: usize) -> Result<SeedKind, u32>
    requires { k ≤ 6 }
    ensures { MatchResult result
        (λ kind. option_and_then kind_named (slice_get (map string_bytes words.now) k) ≡ Some kind)
        (λ at. (at ≡ k) × (option_and_then kind_named (slice_get (map string_bytes words.now) k) ≡ None)) }
{
    kind_named(word(words, k)?).ok_or(k as u32)
}

/// `record IMAGE TREE KIND SEED TURNS`.
#[tactic(auto, unfolding(crate::specs::Commands::seed_record))]
fn seed_record(words: &[String]) -> Result<Command<'_>, u32>
    ensures is { MatchResult result
        (λ c. seed_record (map string_bytes words.now) ≡ Ok (command_from c))
        (λ k. seed_record (map string_bytes words.now) ≡ Err k) }
    ensures range { IfOk result (λ c. IsInRange (command_from c)) }
{
    let image = word(words, 1)?;
    let tree = word(words, 2)?;
    let kind = kind_at(words, 3)?;
    let seed = number(words, 4, 0, u64::MAX)?;
    let turns = small_number(words, 5, 0, MOST_TURNS)?;
    if words.len() > 6 {
        return Err(6);
    }
    Ok(Command::Record(Recorded {
        image,
        tree,
        kind,
        seed,
        turns,
    }))
}

/// `measure IMAGE TREE KIND SEED TURNS`.
#[tactic(auto, unfolding(crate::specs::Commands::seed_measure))]
fn seed_measure(words: &[String]) -> Result<Command<'_>, u32>
    ensures is { MatchResult result
        (λ c. seed_measure (map string_bytes words.now) ≡ Ok (command_from c))
        (λ k. seed_measure (map string_bytes words.now) ≡ Err k) }
    ensures range { IfOk result (λ c. IsInRange (command_from c)) }
{
    let image = word(words, 1)?;
    let tree = word(words, 2)?;
    let kind = kind_at(words, 3)?;
    let seed = number(words, 4, 0, u64::MAX)?;
    let turns = small_number(words, 5, 0, MOST_MEASURED)?;
    if words.len() > 6 {
        return Err(6);
    }
    Ok(Command::Measure(Recorded {
        image,
        tree,
        kind,
        seed,
        turns,
    }))
}

/// `survey IMAGE TREE KIND FIRST COUNT TURNS`.
#[tactic(auto, unfolding(crate::specs::Commands::runs_survey))]
fn runs_survey(words: &[String]) -> Result<Command<'_>, u32>
    ensures is { MatchResult result
        (λ c. runs_survey (map string_bytes words.now) ≡ Ok (command_from c))
        (λ k. runs_survey (map string_bytes words.now) ≡ Err k) }
    ensures range { IfOk result (λ c. IsInRange (command_from c)) }
{
    let image = word(words, 1)?;
    let tree = word(words, 2)?;
    let kind = kind_at(words, 3)?;
    let first = number(words, 4, 0, u64::MAX)?;
    let most = (MOST_SEEDS - 1).min(u64::MAX - first) + 1;
    let count = small_number(words, 5, 1, most)?;
    let turns = small_number(words, 6, 0, MOST_TURNS)?;
    if words.len() > 7 {
        return Err(7);
    }
    Ok(Command::Survey(Survey {
        image,
        tree,
        kind,
        first,
        count,
        turns,
    }))
}

/// `join TABLE TABLE ..`.
#[tactic(auto, unfolding(crate::specs::Commands::tables_named))]
fn tables_named(words: &[String]) -> Result<Command<'_>, u32>
    requires { 1 ≤ length words.now }
    ensures is { MatchResult result
        (λ c. tables_named (map string_bytes words.now) ≡ Ok (command_from c))
        (λ k. tables_named (map string_bytes words.now) ≡ Err k) }
    ensures range { IfOk result (λ c. IsInRange (command_from c)) }
{
    if words.len() < 3 {
        return Err(words.len() as u32);
    }
    if words.len() > MOST_TABLES + 1 {
        return Err(MOST_TABLES as u32 + 1);
    }
    Ok(Command::Join(&words[1..]))
}

/// `page IMAGE TREE SCHEDULE`.
#[tactic(auto, unfolding(crate::specs::Commands::file_page))]
fn file_page(words: &[String]) -> Result<Command<'_>, u32>
    ensures is { MatchResult result
        (λ c. file_page (map string_bytes words.now) ≡ Ok (command_from c))
        (λ k. file_page (map string_bytes words.now) ≡ Err k) }
    ensures range { IfOk result (λ c. IsInRange (command_from c)) }
{
    let image = word(words, 1)?;
    let tree = word(words, 2)?;
    let schedule = word(words, 3)?;
    if words.len() > 4 {
        return Err(4);
    }
    Ok(Command::Page(Paged {
        image,
        tree,
        schedule,
    }))
}

/// The places that the word there names, where there is one.
fn placing_at(words: &[String], k: usize) -> Result<Placing<'_>, u32>
    requires { k ≤ 7 }
    ensures { MatchResult result
        (λ placing. places_said (slice_get (map string_bytes words.now) k) ≡ Some (placing_from placing))
        (λ at. (at ≡ k) × (places_said (slice_get (map string_bytes words.now) k) ≡ None)) }
{
    match words.get(k) {
        None => Ok(Placing::InOrder),
        Some(word) => match read_places(word.as_bytes()) {
            Some(_) => Ok(Placing::Named(word.as_str())),
            None => Err(k as u32),
        },
    }
}

/// `assemble FILE TREE`, and places from this word on.
#[tactic(auto, unfolding(crate::specs::Commands::placed_assembly))]
fn placed_assembly(words: &[String], runs: Runs, k: usize) -> Result<Command<'_>, u32>
    requires { k ≤ 4 }
    ensures is { MatchResult result
        (λ c. placed_assembly (map string_bytes words.now) runs k ≡ Ok (command_from c))
        (λ at. placed_assembly (map string_bytes words.now) runs k ≡ Err at) }
    ensures range { IfOk result (λ c. IsInRange (command_from c)) }
{
    let test = word(words, 1)?;
    let tree = word(words, 2)?;
    let placing = placing_at(words, k)?;
    if words.len() > k + 1 {
        return Err(k as u32 + 1);
    }
    Ok(Command::Assemble(Assembly {
        test,
        tree,
        runs,
        placing,
    }))
}

/// Whether the word there is `all`.
fn is_all(words: &[String], k: usize) -> bool
    ensures { result ≡ is_all (slice_get (map string_bytes words.now) k) }
{
    match words.get(k) {
        None => false,
        Some(word) => word.as_str() == "all",
    }
}

/// `assemble FILE TREE [PLACES]` and `assemble FILE TREE all [PLACES]`.
#[tactic(auto, unfolding(crate::specs::Commands::test_assembly))]
fn test_assembly(words: &[String]) -> Result<Command<'_>, u32>
    ensures is { MatchResult result
        (λ c. test_assembly (map string_bytes words.now) ≡ Ok (command_from c))
        (λ k. test_assembly (map string_bytes words.now) ≡ Err k) }
    ensures range { IfOk result (λ c. IsInRange (command_from c)) }
{
    if is_all(words, 3) {
        placed_assembly(words, Runs::All, 4)
    } else {
        placed_assembly(words, Runs::OfSeeds, 3)
    }
}

/// The command of a name.
#[tactic(auto, unfolding(crate::specs::Commands::about_named))]
fn about_named(name: &str) -> Option<About>
    ensures { result ≡ about_named name.now }
{
    match name {
        "run" => Some(About::Run),
        "trace" => Some(About::Trace),
        "seed" => Some(About::Seed),
        "schedule" => Some(About::Schedule),
        "make" => Some(About::Make),
        "check" => Some(About::Check),
        "unjam" => Some(About::Unjam),
        "save" => Some(About::Save),
        "resume" => Some(About::Resume),
        "outcomes" => Some(About::Outcomes),
        "record" => Some(About::Record),
        "measure" => Some(About::Measure),
        "survey" => Some(About::Survey),
        "join" => Some(About::Join),
        "page" => Some(About::Page),
        "assemble" => Some(About::Assemble),
        _ => None,
    }
}

/// `help COMMAND`.
#[tactic(auto, unfolding(crate::specs::Commands::help_said))]
fn help_said(words: &[String]) -> Result<Command<'_>, u32>
    ensures is { MatchResult result
        (λ c. help_said (map string_bytes words.now) ≡ Ok (command_from c))
        (λ k. help_said (map string_bytes words.now) ≡ Err k) }
    ensures range { IfOk result (λ c. IsInRange (command_from c)) }
{
    let Some(about) = about_named(word(words, 1)?) else {
        return Err(1);
    };
    if words.len() > 2 {
        return Err(2);
    }
    Ok(Command::About(about))
}

/// `--help` and `--version`.
fn alone(words: &[String], about: About) -> Result<Command<'_>, u32>
    ensures is { MatchResult result
        (λ c. ends_at (map string_bytes words.now) 1 (to_say about) ≡ Ok (command_from c))
        (λ k. ends_at (map string_bytes words.now) 1 (to_say about) ≡ Err k) }
    ensures range { IfOk result (λ c. IsInRange (command_from c)) }
{
    if words.len() > 1 {
        return Err(1);
    }
    Ok(Command::About(about))
}

// `help` and `-h` alone.
#[tactic(auto, unfolding(crate::specs::Commands::help_alone))]
fn help_alone(word: &str) -> Option<About>
    ensures { result ≡ help_alone word.now }
{
    match word {
        "help" | "-h" => Some(About::Help),
        _ => None,
    }
}

// `help help` and `help faults`, by the second word.
#[tactic(auto, unfolding(crate::specs::Commands::help_topic))]
fn help_topic(word: &str) -> Option<About>
    ensures { result ≡ help_topic word.now }
{
    match word {
        "help" => Some(About::Asking),
        "faults" => Some(About::Faults),
        _ => None,
    }
}

// These, and `COMMAND --help` and `COMMAND -h`.
#[tactic(auto, unfolding(crate::specs::Commands::help_of_two))]
fn help_of_two(first: &str, second: &str) -> Option<About>
    ensures { result ≡ help_of_two first.now second.now }
{
    match (first, second) {
        ("help", _) => help_topic(second),
        (_, "--help" | "-h") => about_named(first),
        _ => None,
    }
}

// The help that the words ask for. With any other word they ask for none.
fn help_asked(words: &[String]) -> Option<About>
    ensures { result ≡ help_asked (map string_bytes words.now) }
{
    match words {
        [word] => help_alone(word.as_str()),
        [first, second] => help_of_two(first.as_str(), second.as_str()),
        _ => None,
    }
}

// The command that the words say in their order.
fn named_command(words: &[String]) -> Result<Command<'_>, u32>
    ensures is { MatchResult result
        (λ c. word_at (map string_bytes words.now) 0 (named_command (map string_bytes words.now)) ≡ Ok (command_from c))
        (λ k. word_at (map string_bytes words.now) 0 (named_command (map string_bytes words.now)) ≡ Err k) }
    ensures range { IfOk result (λ c. IsInRange (command_from c)) }
{
    match word(words, 0)? {
        "run" => file_run(words, Prints::Report),
        "trace" => file_run(words, Prints::Trace),
        "seed" => seed_run(words),
        "schedule" => seed_list(words),
        "make" => made_run(words),
        "check" => file_check(words),
        "unjam" => file_run(words, Prints::Unjamming),
        "save" => file_run(words, Prints::Checkpoint),
        "resume" => file_resume(words),
        "outcomes" => seeds_survey(words),
        "record" => seed_record(words),
        "measure" => seed_measure(words),
        "survey" => runs_survey(words),
        "join" => tables_named(words),
        "page" => file_page(words),
        "assemble" => test_assembly(words),
        "help" => help_said(words),
        "--help" => alone(words, About::Help),
        "--version" => alone(words, About::Version),
        _ => Err(0),
    }
}

/// The command that the words say, or the index of the first word at fault or of the first that is missing.
#[tactic(auto, unfolding(crate::specs::Commands::command_of))]
pub fn command_said(words: &[String]) -> Result<Command<'_>, u32>
    ensures is { MatchResult result
        (λ c. command_of (map string_bytes words.now) ≡ Ok (command_from c))
        (λ k. command_of (map string_bytes words.now) ≡ Err k) }
    ensures range { IfOk result (λ c. IsInRange (command_from c)) }
{
    match help_asked(words) {
        Some(about) => Ok(Command::About(about)),
        None => named_command(words),
    }
}

/// The index of the first word at fault or of the first that is missing; None where the words are those of a command.
pub fn first_fault(words: &[String]) -> Option<u32>
    ensures fault { IfSome result (λ k. command_of (map string_bytes words.now) ≡ Err k) }
    ensures none { result ≡ None → IsOk (command_of (map string_bytes words.now)) }
{
    command_said(words).err()
}
