//! The line of each refusal.

ghost use Rattle.std.specs.Prelude.{◌≡◌, ◌+◌, ◌++◌, ◌≤◌, length, codes, decimal};
ghost use Rattle.ddm_cli.specs.TextModel.Faults.{name_words, number_texts, schedule_fault, schedule_refusal_name};
ghost use Rattle.ddm_cli.specs.TreeConfig.TreeFile.{key_name};
ghost use Rattle.ddm_cli.specs.Refusals.{build_line, checkpoint_line, image_line, small_lists_line, tree_line_head, witness_line};

use crate::of_elf_load::ImageRefusal;
use crate::of_report::FaultLine;
use crate::of_text_model::ScheduleRefusal;
use crate::of_tree_config::{TreeKey, TreeRefusal};
use checkpoint::ResumeRefusal;
use run_engine::BuildRefusal;
use witness_check::CheckRefusal;

// Puts numbers at the end, each after a space.
fn push_numbers(line: &mut FaultLine, numbers: &[u64])
    requires line { length line.old ≤ 32 }
    requires numbers { length numbers.now ≤ 2 }
    ensures text { line.new ≡ line.old ++ number_texts numbers.now }
    ensures short { length line.new ≤ length line.old + 42 }
{
    for number in numbers {
        line.push(b" ");
        line.push_number(*number);
    }
}

// A line that ends with numbers.
fn numbered(head: &[u8], name: &[u8], numbers: &[u64]) -> FaultLine
    requires room { length head.now + length name.now ≤ 32 }
    requires numbers { length numbers.now ≤ 2 }
    ensures { result ≡ head.now ++ (name.now ++ number_texts numbers.now) ++ codes "\n" }
{
    let mut line = FaultLine::new();
    line.push(head);
    line.push(name);
    push_numbers(&mut line, numbers);
    line.push(b"\n");
    line
}

// The line for an image, by the words of a refusal's name and its numbers.
fn image(name: &[u8], numbers: &[u64]) -> FaultLine
    requires name { length name.now ≤ 20 }
    requires numbers { length numbers.now ≤ 2 }
    ensures { result ≡ codes "ddm: image: " ++ (name.now ++ number_texts numbers.now) ++ codes "\n" }
{
    numbered(b"ddm: image: ", name, numbers)
}

/// The line for an image that isn't accepted.
#[tactic(auto, unfolding(crate::specs::Opened::image_fault, crate::specs::Opened::refusal_text, crate::specs::Opened::name_words))]
pub fn image_line(refusal: &ImageRefusal) -> FaultLine
    ensures { result ≡ image_line refusal.now }
{
    match *refusal {
        ImageRefusal::TooLong => image(b"too long", &[]),
        ImageRefusal::NotElf => image(b"not elf", &[]),
        ImageRefusal::WrongClass => image(b"wrong class", &[]),
        ImageRefusal::NotExecutable => image(b"not executable", &[]),
        ImageRefusal::WrongMachine => image(b"wrong machine", &[]),
        ImageRefusal::Compressed => image(b"compressed", &[]),
        ImageRefusal::HardFloat => image(b"hard float", &[]),
        ImageRefusal::Embedded => image(b"embedded", &[]),
        ImageRefusal::TooManyHeaders(n) => image(b"too many headers", &[u64::from(n)]),
        ImageRefusal::HeaderOutside(n) => image(b"header outside", &[u64::from(n)]),
        ImageRefusal::Dynamic(n) => image(b"dynamic", &[u64::from(n)]),
        ImageRefusal::SegmentOutside(n) => image(b"segment outside", &[u64::from(n)]),
        ImageRefusal::AddressWraps(n) => image(b"address wraps", &[u64::from(n)]),
        ImageRefusal::SegmentsOverlap(a, b) => {
            image(b"segments overlap", &[u64::from(a), u64::from(b)])
        }
        ImageRefusal::NoSegments => image(b"no segments", &[]),
        ImageRefusal::TooMuchCode(n) => image(b"too much code", &[n]),
        ImageRefusal::TooManyItems(n) => image(b"too many items", &[n]),
        ImageRefusal::BadEntry(n) => image(b"bad entry", &[u64::from(n)]),
        ImageRefusal::NoMemory => image(b"no memory", &[]),
    }
}

/// The line for an image of which a tree makes no machine.
#[tactic(auto, unfolding(crate::specs::Opened::image_fault, crate::specs::Opened::refusal_text, crate::specs::Opened::name_words))]
pub fn build_line(refusal: &BuildRefusal) -> FaultLine
    ensures { result ≡ build_line refusal.now }
{
    match *refusal {
        BuildRefusal::TooManyItems(n) => image(b"too many items", &[n]),
        BuildRefusal::StackOverlap { hart, header } => {
            image(b"stack overlap", &[u64::from(hart), u64::from(header)])
        }
        BuildRefusal::NoPlace(item) => image(b"no place", &[u64::from(item.0)]),
        BuildRefusal::NoMemory => image(b"no memory", &[]),
    }
}

// The line for a tree file, by the words of a refusal's name and its numbers.
fn tree(name: &[u8], numbers: &[u64]) -> FaultLine
    requires name { length name.now ≤ 20 }
    requires numbers { length numbers.now ≤ 2 }
    ensures { result ≡ codes "ddm: tree: " ++ (name.now ++ number_texts numbers.now) ++ codes "\n" }
{
    numbered(b"ddm: tree: ", name, numbers)
}

// A key as a tree file spells it.
#[tactic(auto, using(crate::proofs::Keys::key_short))]
fn key_name(key: TreeKey) -> &'static [u8]
    ensures name { result.now ≡ key_name key }
    ensures short { length result.now ≤ 11 }
{
    key.name().as_bytes()
}

// The line for a key of a tree file.
fn keyed(name: &[u8], key: TreeKey) -> FaultLine
    requires name { length name.now ≤ 20 }
    ensures { result ≡ codes "ddm: tree: " ++ (name.now ++ codes " " ++ key_name key) ++ codes "\n" }
{
    let mut line = FaultLine::new();
    line.push(b"ddm: tree: ");
    line.push(name);
    line.push(b" ");
    line.push(key_name(key));
    line.push(b"\n");
    line
}

// What is before an unknown key.
fn before_key() -> FaultLine
    ensures { result ≡ codes "ddm: tree: unknown key " }
{
    let mut line = FaultLine::new();
    line.push(b"ddm: tree: unknown key ");
    line
}

/// The line for a tree file that isn't accepted; for an unknown key what is before the key.
#[tactic(auto, unfolding(crate::specs::Opened::tree_fault, crate::specs::Opened::tree_key_fault, // of a tree
crate::specs::Opened::key_refusal_text, crate::specs::Opened::refusal_text, crate::specs::Opened::name_words))]
pub fn tree_line_head(refusal: &TreeRefusal) -> FaultLine
    ensures { result ≡ tree_line_head refusal.now }
{
    match refusal {
        TreeRefusal::TooLong => tree(b"too long", &[]),
        TreeRefusal::NotToml => tree(b"not toml", &[]),
        TreeRefusal::UnknownKey(_) => before_key(),
        TreeRefusal::MissingKey(key) => keyed(b"missing key", *key),
        TreeRefusal::WrongType(key) => keyed(b"wrong type", *key),
        TreeRefusal::BadShape(place) => tree(b"bad shape", &[u64::from(*place)]),
        TreeRefusal::Uneven => tree(b"uneven", &[]),
        TreeRefusal::TooDeep => tree(b"too deep", &[]),
        TreeRefusal::TooWide => tree(b"too wide", &[]),
        TreeRefusal::TooManyLeaves => tree(b"too many leaves", &[]),
        TreeRefusal::OutOfRange(key) => keyed(b"out of range", *key),
        TreeRefusal::NoMemory => tree(b"no memory", &[]),
    }
}

// The words of a schedule's refusal.
#[tactic(auto, unfolding(crate::specs::Opened::name_words))]
fn schedule_words(refusal: ScheduleRefusal) -> &'static [u8]
    ensures words { result.now ≡ name_words (schedule_refusal_name refusal) }
    ensures short { length result.now ≤ 14 }
{
    match refusal {
        ScheduleRefusal::BadTurn => b"bad turn",
        ScheduleRefusal::TooManyTurns => b"too many turns",
        ScheduleRefusal::NoSuchHart => b"no such hart",
        ScheduleRefusal::NoSuchBus => b"no such bus",
        ScheduleRefusal::NoSuchChild => b"no such child",
        ScheduleRefusal::NoEnd => b"no end",
        ScheduleRefusal::AfterEnd => b"after end",
    }
}

/// The line for a schedule that is refused in a line.
#[tactic(auto, unfolding(crate::specs::Opened::schedule_fault))]
pub fn schedule_line(line: u32, refusal: ScheduleRefusal) -> FaultLine
    ensures { result ≡ schedule_fault line refusal }
{
    let mut text = FaultLine::new();
    text.push(b"ddm: schedule line ");
    text.push_number(u64::from(line));
    text.push(b": ");
    text.push(schedule_words(refusal));
    text.push(b"\n");
    text
}

// The line for a witness that is refused as a whole, by the words of the refusal's name.
fn witness(name: &[u8]) -> FaultLine
    requires { length name.now ≤ 14 }
    ensures { result ≡ codes "ddm: witness: " ++ name.now ++ codes "\n" }
{
    let mut text = FaultLine::new();
    text.push(b"ddm: witness: ");
    text.push(name);
    text.push(b"\n");
    text
}

// The line for a witness that is refused in a line.
fn witness_at(line: u32, name: &[u8]) -> FaultLine
    requires { length name.now ≤ 14 }
    ensures { result ≡ codes "ddm: witness line " ++ decimal line ++ codes ": " ++ name.now ++ codes "\n" }
{
    let mut text = FaultLine::new();
    text.push(b"ddm: witness line ");
    text.push_number(u64::from(line));
    text.push(b": ");
    text.push(name);
    text.push(b"\n");
    text
}

/// The line for a witness that isn't accepted.
#[tactic(auto, unfolding(crate::specs::Opened::witness_fault, crate::specs::Opened::witness_line_fault, crate::specs::Opened::name_words))]
pub fn witness_line(refusal: &CheckRefusal) -> FaultLine
    ensures { result ≡ witness_line refusal.now }
{
    match *refusal {
        CheckRefusal::TooLong => witness(b"too long"),
        CheckRefusal::BadLine(n) => witness_at(n, b"bad line"),
        CheckRefusal::TooManyLines(n) => witness_at(n, b"too many lines"),
        CheckRefusal::NotLegal(n) => witness_at(n, b"not legal"),
        CheckRefusal::TooManyItems(n) => build_line(&BuildRefusal::TooManyItems(n)),
        CheckRefusal::StackOverlap { hart, header } => {
            build_line(&BuildRefusal::StackOverlap { hart, header })
        }
        CheckRefusal::NoMemory => witness(b"no memory"),
    }
}

// The line for a checkpoint, by the words of a refusal's name and its numbers.
fn checkpoint(name: &[u8], numbers: &[u64]) -> FaultLine
    requires name { length name.now ≤ 14 }
    requires numbers { length numbers.now ≤ 2 }
    ensures { result ≡ codes "ddm: checkpoint: " ++ (name.now ++ number_texts numbers.now) ++ codes "\n" }
{
    numbered(b"ddm: checkpoint: ", name, numbers)
}

/// The line for a checkpoint that isn't accepted.
#[tactic(auto, unfolding(crate::specs::Opened::checkpoint_fault, crate::specs::Opened::refusal_text, crate::specs::Opened::name_words))]
pub fn checkpoint_line(refusal: &ResumeRefusal) -> FaultLine
    ensures { result ≡ checkpoint_line refusal.now }
{
    match *refusal {
        ResumeRefusal::TooLong => checkpoint(b"too long", &[]),
        ResumeRefusal::NotCheckpoint => checkpoint(b"not checkpoint", &[]),
        ResumeRefusal::WrongVersion(n) => checkpoint(b"wrong version", &[u64::from(n)]),
        ResumeRefusal::Cut(word) => checkpoint(b"cut", &[u64::from(word)]),
        ResumeRefusal::OtherMachine(word) => checkpoint(b"other machine", &[u64::from(word)]),
        ResumeRefusal::BadWord(word) => checkpoint(b"bad word", &[u64::from(word)]),
        ResumeRefusal::AfterEnd => checkpoint(b"after end", &[]),
        ResumeRefusal::BrokenLeaf(leaf) => checkpoint(b"broken leaf", &[u64::from(leaf)]),
        ResumeRefusal::BrokenRule { bus, item } => {
            checkpoint(b"broken rule", &[u64::from(bus), u64::from(item)])
        }
        ResumeRefusal::BrokenStamp(bus) => checkpoint(b"broken stamp", &[u64::from(bus)]),
        ResumeRefusal::BrokenKey(op) => checkpoint(b"broken key", &[u64::from(op)]),
        ResumeRefusal::NoMemory => checkpoint(b"no memory", &[]),
    }
}

/// The line for lists that are too small, by the key of the first.
pub fn small_lists_line(key: TreeKey) -> FaultLine
    ensures { result ≡ small_lists_line key }
{
    let mut text = FaultLine::new();
    text.push(b"ddm: small lists: ");
    text.push(key_name(key));
    text.push(b"\n");
    text
}
