//! What a mnemonic says: the form of its instruction.

ghost use Rattle.std.specs.Prelude.{◌≡◌, ◌≤◌, ℕ, List, IfOk, IfSome, length, bytes_eq, not, nat_eq, true};
ghost use Rattle.std.specs.List.{list_any, prefix_len};
ghost use Rattle.std.specs.Option.{option_map};
ghost use Rattle.std.specs.Borrow.{Bor};
ghost use Rattle.litmus_model.specs.Mnemonics.{atomic_form, atomic_rows, behind_stem, fence_rows, form_in_tables};
ghost use Rattle.litmus_model.specs.Mnemonics.{form_of, is_wide, is_wide_atomic, jump_rows, meaning_in, order_rows};
ghost use Rattle.litmus_model.specs.Mnemonics.{plain_rows, stem};
ghost use Rattle.litmus_steps.specs.Made.{is_form};
ghost use Rattle.litmus_steps.specs.Rows.{form_with, named_rows};

use litmus_model::{Fault, Form, Move, Orders, TestRefusal};
use litmus_text::{in_line, is};
use rv_decode::{AmoOp, BranchOp, ImmOp, LoadOp, RegOp, StoreOp};

/// A name, and what it stands for.
#[derive(Clone, Copy)]
struct Row<A> {
    name: &'static [u8],
    meaning: A,
}

/// An atomic instruction, whatever its orders.
#[derive(Clone, Copy)]
enum Atomic {
    LoadReserved,
    StoreConditional,
    Amo(AmoOp),
}

/// Instructions of one word, with those of an assembler.
const PLAIN_ROWS: [Row<Form>; 35] = [
    Row {
        name: b"add",
        meaning: Form::Registers(RegOp::Add),
    },
    Row {
        name: b"sub",
        meaning: Form::Registers(RegOp::Sub),
    },
    Row {
        name: b"sll",
        meaning: Form::Registers(RegOp::Sll),
    },
    Row {
        name: b"slt",
        meaning: Form::Registers(RegOp::Slt),
    },
    Row {
        name: b"sltu",
        meaning: Form::Registers(RegOp::Sltu),
    },
    Row {
        name: b"xor",
        meaning: Form::Registers(RegOp::Xor),
    },
    Row {
        name: b"srl",
        meaning: Form::Registers(RegOp::Srl),
    },
    Row {
        name: b"sra",
        meaning: Form::Registers(RegOp::Sra),
    },
    Row {
        name: b"or",
        meaning: Form::Registers(RegOp::Or),
    },
    Row {
        name: b"and",
        meaning: Form::Registers(RegOp::And),
    },
    Row {
        name: b"addi",
        meaning: Form::Immediate(ImmOp::Addi),
    },
    Row {
        name: b"slti",
        meaning: Form::Immediate(ImmOp::Slti),
    },
    Row {
        name: b"sltiu",
        meaning: Form::Immediate(ImmOp::Sltiu),
    },
    Row {
        name: b"xori",
        meaning: Form::Immediate(ImmOp::Xori),
    },
    Row {
        name: b"ori",
        meaning: Form::Immediate(ImmOp::Ori),
    },
    Row {
        name: b"andi",
        meaning: Form::Immediate(ImmOp::Andi),
    },
    Row {
        name: b"slli",
        meaning: Form::Immediate(ImmOp::Slli),
    },
    Row {
        name: b"srli",
        meaning: Form::Immediate(ImmOp::Srli),
    },
    Row {
        name: b"srai",
        meaning: Form::Immediate(ImmOp::Srai),
    },
    Row {
        name: b"lui",
        meaning: Form::Upper,
    },
    Row {
        name: b"li",
        meaning: Form::Number,
    },
    Row {
        name: b"lb",
        meaning: Form::Load(LoadOp::Lb),
    },
    Row {
        name: b"lh",
        meaning: Form::Load(LoadOp::Lh),
    },
    Row {
        name: b"lw",
        meaning: Form::Load(LoadOp::Lw),
    },
    Row {
        name: b"lbu",
        meaning: Form::Load(LoadOp::Lbu),
    },
    Row {
        name: b"lhu",
        meaning: Form::Load(LoadOp::Lhu),
    },
    Row {
        name: b"sb",
        meaning: Form::Store(StoreOp::Sb),
    },
    Row {
        name: b"sh",
        meaning: Form::Store(StoreOp::Sh),
    },
    Row {
        name: b"sw",
        meaning: Form::Store(StoreOp::Sw),
    },
    Row {
        name: b"mv",
        meaning: Form::Move(Move::Mv),
    },
    Row {
        name: b"not",
        meaning: Form::Move(Move::Not),
    },
    Row {
        name: b"neg",
        meaning: Form::Move(Move::Neg),
    },
    Row {
        name: b"seqz",
        meaning: Form::Move(Move::Seqz),
    },
    Row {
        name: b"snez",
        meaning: Form::Move(Move::Snez),
    },
    Row {
        name: b"nop",
        meaning: Form::Nothing,
    },
];

/// Branches and jumps.
const JUMP_ROWS: [Row<Form>; 17] = [
    Row {
        name: b"beq",
        meaning: Form::Branch {
            op: BranchOp::Beq,
            turned: false,
        },
    },
    Row {
        name: b"bne",
        meaning: Form::Branch {
            op: BranchOp::Bne,
            turned: false,
        },
    },
    Row {
        name: b"blt",
        meaning: Form::Branch {
            op: BranchOp::Blt,
            turned: false,
        },
    },
    Row {
        name: b"bge",
        meaning: Form::Branch {
            op: BranchOp::Bge,
            turned: false,
        },
    },
    Row {
        name: b"bltu",
        meaning: Form::Branch {
            op: BranchOp::Bltu,
            turned: false,
        },
    },
    Row {
        name: b"bgeu",
        meaning: Form::Branch {
            op: BranchOp::Bgeu,
            turned: false,
        },
    },
    Row {
        name: b"bgt",
        meaning: Form::Branch {
            op: BranchOp::Blt,
            turned: true,
        },
    },
    Row {
        name: b"ble",
        meaning: Form::Branch {
            op: BranchOp::Bge,
            turned: true,
        },
    },
    Row {
        name: b"bgtu",
        meaning: Form::Branch {
            op: BranchOp::Bltu,
            turned: true,
        },
    },
    Row {
        name: b"bleu",
        meaning: Form::Branch {
            op: BranchOp::Bgeu,
            turned: true,
        },
    },
    Row {
        name: b"beqz",
        meaning: Form::ZeroBranch {
            op: BranchOp::Beq,
            turned: false,
        },
    },
    Row {
        name: b"bnez",
        meaning: Form::ZeroBranch {
            op: BranchOp::Bne,
            turned: false,
        },
    },
    Row {
        name: b"bltz",
        meaning: Form::ZeroBranch {
            op: BranchOp::Blt,
            turned: false,
        },
    },
    Row {
        name: b"bgez",
        meaning: Form::ZeroBranch {
            op: BranchOp::Bge,
            turned: false,
        },
    },
    Row {
        name: b"bgtz",
        meaning: Form::ZeroBranch {
            op: BranchOp::Blt,
            turned: true,
        },
    },
    Row {
        name: b"blez",
        meaning: Form::ZeroBranch {
            op: BranchOp::Bge,
            turned: true,
        },
    },
    Row {
        name: b"j",
        meaning: Form::Jump,
    },
];

/// Fences.
const FENCE_ROWS: [Row<Form>; 3] = [
    Row {
        name: b"fence",
        meaning: Form::Fence,
    },
    Row {
        name: b"fence.tso",
        meaning: Form::FixedFence(0x833),
    },
    Row {
        name: b"fence.i",
        meaning: Form::FixedFence(0),
    },
];

/// What stands behind `.w`.
const ORDER_ROWS: [Row<Orders>; 5] = [
    Row {
        name: b"",
        meaning: Orders {
            aq: false,
            rl: false,
        },
    },
    Row {
        name: b".aq",
        meaning: Orders {
            aq: true,
            rl: false,
        },
    },
    Row {
        name: b".rl",
        meaning: Orders {
            aq: false,
            rl: true,
        },
    },
    Row {
        name: b".aqrl",
        meaning: Orders { aq: true, rl: true },
    },
    Row {
        name: b".aq.rl",
        meaning: Orders { aq: true, rl: true },
    },
];

/// What stands before `.w`.
const ATOMIC_ROWS: [Row<Atomic>; 11] = [
    Row {
        name: b"lr",
        meaning: Atomic::LoadReserved,
    },
    Row {
        name: b"sc",
        meaning: Atomic::StoreConditional,
    },
    Row {
        name: b"amoswap",
        meaning: Atomic::Amo(AmoOp::Swap),
    },
    Row {
        name: b"amoadd",
        meaning: Atomic::Amo(AmoOp::Add),
    },
    Row {
        name: b"amoxor",
        meaning: Atomic::Amo(AmoOp::Xor),
    },
    Row {
        name: b"amoand",
        meaning: Atomic::Amo(AmoOp::And),
    },
    Row {
        name: b"amoor",
        meaning: Atomic::Amo(AmoOp::Or),
    },
    Row {
        name: b"amomin",
        meaning: Atomic::Amo(AmoOp::Min),
    },
    Row {
        name: b"amomax",
        meaning: Atomic::Amo(AmoOp::Max),
    },
    Row {
        name: b"amominu",
        meaning: Atomic::Amo(AmoOp::Minu),
    },
    Row {
        name: b"amomaxu",
        meaning: Atomic::Amo(AmoOp::Maxu),
    },
];

/// What machines with registers of 64 bits have.
const WIDE_NAMES: [&str; 14] = [
    "ld", "sd", "lwu", "addiw", "addw", "subw", "slliw", "srliw", "sraiw", "sllw", "srlw", "sraw",
    "negw", "sext.w",
];

/// What the first row with this name says.
#[tactic(auto, using(crate::proofs::RowSearch::row_next, crate::proofs::RowSearch::row_found, crate::proofs::RowSearch::row_done))]
fn meaning_in<A: Copy>(rows: &[Row<A>], word: &[u8]) -> Option<A>
    ensures { result ≡ meaning_in (named_rows rows.now) word.now }
{
    for row in rows {
        if *word == *row.name {
            return Some(row.meaning);
        }
    }
    None
}

fn plain_form(word: &[u8]) -> Option<Form>
    ensures form { result ≡ meaning_in plain_rows word.now }
    ensures valid { IfSome result (λ form. is_form form ≡ true) }
{
    meaning_in(&PLAIN_ROWS, word)
}

fn jump_form(word: &[u8]) -> Option<Form>
    ensures form { result ≡ meaning_in jump_rows word.now }
    ensures valid { IfSome result (λ form. is_form form ≡ true) }
{
    meaning_in(&JUMP_ROWS, word)
}

fn fence_form(word: &[u8]) -> Option<Form>
    ensures form { result ≡ meaning_in fence_rows word.now }
    ensures valid { IfSome result (λ form. is_form form ≡ true) }
{
    meaning_in(&FENCE_ROWS, word)
}

#[tactic(auto, unfolding(litmus_model::specs::Mnemonics::order_rows))]
fn orders_of(word: &[u8]) -> Option<Orders>
    ensures { result ≡ meaning_in order_rows word.now }
{
    meaning_in(&ORDER_ROWS, word)
}

fn atomic_of(word: &[u8]) -> Option<Atomic>
    ensures { option_map form_with result ≡ meaning_in atomic_rows word.now }
{
    meaning_in(&ATOMIC_ROWS, word)
}

fn with_orders(atomic: Atomic, orders: Orders) -> Form
    ensures form { result ≡ form_with atomic orders }
    ensures valid { is_form result ≡ true }
{
    match atomic {
        Atomic::LoadReserved => Form::LoadReserved(orders),
        Atomic::StoreConditional => Form::StoreConditional(orders),
        Atomic::Amo(op) => Form::Amo { op, orders },
    }
}

/// How many bytes are before the first full stop.
#[tactic(auto, using(crate::proofs::Stems::stop_next, crate::proofs::Stems::stop_found, crate::proofs::Stems::stop_done))]
fn stem_length(word: &[u8]) -> usize
    ensures length { result ≡ prefix_len (λ b. not (nat_eq b 46)) word.now }
    ensures inside { result ≤ length word.now }
{
    for (place, byte) in word.iter().enumerate() {
        if *byte == b'.' {
            return place;
        }
    }
    word.len()
}

/// What is before the first full stop.
fn stem(word: &[u8]) -> &[u8]
    ensures { result.now ≡ stem word.now }
{
    &word[..stem_length(word)]
}

/// The first full stop, and what follows.
#[tactic(auto, using(crate::proofs::Stems::as_long))]
fn behind_stem(word: &[u8]) -> &[u8]
    ensures { result.now ≡ behind_stem word.now }
{
    &word[stem_length(word)..]
}

/// An atomic instruction of words.
#[tactic(auto, unfolding(litmus_model::specs::Mnemonics::atomic_form))]
fn atomic_form(word: &[u8]) -> Option<Form>
    ensures form { result ≡ atomic_form word.now }
    ensures valid { IfSome result (λ form. is_form form ≡ true) }
{
    let behind = behind_stem(word);
    if !is(&behind[..2.min(behind.len())], ".w") {
        return None;
    }
    match atomic_of(stem(word)) {
        Some(atomic) => match orders_of(&behind[2.min(behind.len())..]) {
            Some(orders) => Some(with_orders(atomic, orders)),
            None => None,
        },
        None => None,
    }
}

/// An atomic instruction of two words, whatever stands behind `.d`.
fn is_wide_atomic(word: &[u8]) -> bool
    ensures { result ≡ is_wide_atomic word.now }
{
    let behind = behind_stem(word);
    match atomic_of(stem(word)) {
        Some(_) => is(stem(&behind[1.min(behind.len())..]), "d"),
        None => false,
    }
}

#[tactic(auto, using(litmus_model::proofs::Searches::any_search))]
fn is_among(names: &[&str], word: &[u8]) -> bool
    ensures { result ≡ list_any (λ (name : Bor (List ℕ)). bytes_eq word.now name.now) names.now }
{
    for name in names {
        if is(word, name) {
            return true;
        }
    }
    false
}

/// An instruction of machines with registers of 64 bits.
#[tactic(auto, unfolding(litmus_model::specs::Mnemonics::is_wide, litmus_model::specs::Mnemonics::wide_names))]
fn is_wide(word: &[u8]) -> bool
    ensures { result ≡ is_wide word.now }
{
    is_among(&WIDE_NAMES, word) || is_wide_atomic(word)
}

#[tactic(auto, unfolding(litmus_model::specs::Mnemonics::form_in_tables))]
fn form_in_tables(word: &[u8]) -> Option<Form>
    ensures form { result ≡ form_in_tables word.now }
    ensures valid { IfSome result (λ form. is_form form ≡ true) }
{
    match plain_form(word) {
        Some(form) => Some(form),
        None => match jump_form(word) {
            Some(form) => Some(form),
            None => match fence_form(word) {
                Some(form) => Some(form),
                None => atomic_form(word),
            },
        },
    }
}

/// The form of the instruction with this mnemonic.
#[tactic(auto, unfolding(litmus_model::specs::Mnemonics::form_of))]
pub fn form_of(line: u32, word: &[u8]) -> Result<Form, TestRefusal>
    ensures form { result ≡ form_of line word.now }
    ensures valid { IfOk result (λ form. is_form form ≡ true) }
{
    match form_in_tables(word) {
        Some(form) => Ok(form),
        None if is_wide(word) => Err(in_line(line, Fault::SixtyFourBits)),
        None => Err(in_line(line, Fault::UnknownInstruction)),
    }
}
