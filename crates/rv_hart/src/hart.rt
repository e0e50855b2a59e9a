//! A hart without memory: what its next instruction needs and does.

ghost use Rattle.std.specs.Prelude.{◌≡◌, ◌+◌, ◌*◌, ◌<◌, ◌≤◌, ℕ, None, Some, slice_index};
ghost use Rattle.rv_hart.specs.DdmTypes.ItemTable.{ItemTable};
ghost use Rattle.flat_model.specs.Hart.{action_of, advanced, ask_of, call, changing, finish_by, finish_of};
ghost use Rattle.flat_model.specs.Hart.{hart_start, instr_action, is_taken, load_bytes, loading, next_pc, offset_by};
ghost use Rattle.flat_model.specs.Hart.{register, reserving, store_bytes, storing, storing_if, with_register};
ghost use Rattle.flat_model.specs.Hart.{written};
ghost use Rattle.rv_hart.specs.HartState.{with_hart};
ghost use Rattle.rv_hart.specs.Steps.{HasNoAccess, IsFinished, IsInWord, IsInside, IsReady, access_value, action_by, fetched, GoesOn};

use crate::bytes::{loaded_value, stored_word};
use crate::of_ddm_types::{Code, Effect, HaltCause, HartNo, Items, Start, Words};
use crate::of_rv_decode::{AmoOp, BranchOp, Instr, LoadOp, Reg, StoreOp, decode};
use crate::results::{amo_result, immediate_result, is_taken, offset_by, register_result};
use crate::steps::{
    Access, Step, change_step, jump_step, link_step, load_step, reserve_step,
    store_if_reserved_step, store_step,
};
use flat_model::Ask;
use std::marker::Model;

/// A hart: its registers, its pc, why it stopped if it did, and how many instructions it has completed.
#[derive(Drop)]
pub struct Hart {
    registers: [u32; 32],
    pc: u32,
    halt: Option<HaltCause>,
    done: u32,
}

impl Model for Hart {
    ghost use Rattle.std.specs.Prelude.{◌≡◌, slice_index};
    ghost use Rattle.rv_hart.specs.HartState.{HartState};

    ghost Value = { HartState };

    ghost view = { λ h. record { hart = record { registers = h.registers; pc = h.pc; halt = h.halt }; done = h.done } };

    ghost invariant = { λ h. slice_index h.registers 0 ≡ 0 };
}

impl Hart {
    /// The hart with this number at its start.
    #[tactic(auto, unfolding(flat_model::specs::Hart::hart_start))]
    pub fn new(hart: HartNo, start: Start) -> Hart
        requires number { hart < start.harts }
        requires harts { start.harts ≤ 64 }
        requires stacks { start.stack_base + start.harts * start.stack_bytes ≤ 4294967280 }
        ensures { result ≡ record { hart = hart_start start hart; done = 0 } }
    {
        let mut registers = [0; 32];
        registers[2] = start.stack_base + (hart.0 + 1) * start.stack_bytes;
        registers[10] = hart.0;
        registers[11] = start.harts;
        Hart {
            registers,
            pc: start.entry,
            halt: None,
            done: 0,
        }
    }

    /// A hart with these values.
    pub fn restore(registers: [u32; 32], pc: u32, done: u32, halted: Option<HaltCause>) -> Hart
        requires { slice_index registers 0 ≡ 0 }
        ensures { result ≡ record { hart = record { registers = registers; pc = pc; halt = halted }; done = done } }
    {
        Hart {
            registers,
            pc,
            halt: halted,
            done,
        }
    }

    /// Becomes a copy of another hart.
    pub fn copy_from(&mut self, other: &Self)
        ensures { self.new ≡ other.now }
    {
        self.registers = other.registers;
        self.pc = other.pc;
        self.halt = other.halt;
        self.done = other.done;
    }

    /// The value of a register. A register of number 32 or above, which no instruction names, is 0.
    pub fn register(&self, reg: Reg) -> u32
        ensures { result ≡ register self.now.hart reg }
    {
        if reg.0 < 32 {
            self.registers[reg.0 as usize]
        } else {
            0
        }
    }

    /// All registers, by number.
    pub fn registers(&self) -> [u32; 32]
        ensures { result ≡ self.now.hart.registers }
    {
        self.registers
    }

    pub fn pc(&self) -> u32
        ensures { result ≡ self.now.hart.pc }
    {
        self.pc
    }

    /// Why the hart stopped, if it did.
    pub fn halted(&self) -> Option<HaltCause>
        ensures { result ≡ self.now.hart.halt }
    {
        self.halt
    }

    /// How many instructions the hart has completed.
    pub fn done(&self) -> u32
        ensures { result ≡ self.now.done }
    {
        self.done
    }

    /// The next instruction, or why there is none.
    fn fetch(&self, code: &Code) -> Result<Instr, HaltCause>
        ensures { result ≡ fetched code.now self.now.hart.pc }
    {
        let Some(word) = code.word_at(self.pc) else {
            return Err(HaltCause::FetchOutside(self.pc));
        };
        decode(word).ok_or(HaltCause::Illegal(word))
    }

    fn address(&self, base: Reg, offset: i32) -> u32
        ensures { result ≡ offset_by (register self.now.hart base) offset }
    {
        offset_by(self.register(base), offset)
    }

    fn call_step(&self) -> Step
        ensures value { action_by self.now.hart result ≡ call self.now.hart }
        ensures inside { (size : ℕ) → IsInside size result }
    {
        let argument = self.register(Reg(10));
        match self.register(Reg(17)) {
            93 => Step::Halt(HaltCause::Exit(argument)),
            1000 => Step::Put((argument % 256) as u8),
            number => Step::Halt(HaltCause::UnknownCall(number)),
        }
    }

    #[tactic(auto, unfolding(flat_model::specs::Hart::instr_action))]
    fn branch_step(&self, op: BranchOp, rs1: Reg, rs2: Reg, offset: i32) -> Step
        ensures value { (items : ItemTable) →
            action_by self.now.hart result ≡ instr_action items self.now.hart (Instr.Branch op rs1 rs2 offset) }
        ensures inside { (size : ℕ) → IsInside size result }
    {
        if is_taken(op, self.register(rs1), self.register(rs2)) {
            jump_step(offset_by(self.pc, offset))
        } else {
            Step::Advance
        }
    }

    /// The step of an instruction without an access.
    #[tactic(auto, unfolding(flat_model::specs::Hart::instr_action))]
    fn plain_step(&self, instr: Instr) -> Step
        requires { HasNoAccess instr }
        ensures value { (items : ItemTable) → action_by self.now.hart result ≡ instr_action items self.now.hart instr }
        ensures inside { (size : ℕ) → IsInside size result }
    {
        match instr {
            Instr::Lui { rd, imm } => Step::Write(rd, imm),
            Instr::Auipc { rd, imm } => Step::Write(rd, self.pc.wrapping_add(imm)),
            Instr::Immediate { op, rd, rs1, imm } => {
                Step::Write(rd, immediate_result(op, self.register(rs1), imm))
            }
            Instr::Register { op, rd, rs1, rs2 } => Step::Write(
                rd,
                register_result(op, self.register(rs1), self.register(rs2)),
            ),
            Instr::Jal { rd, offset } => link_step(rd, offset_by(self.pc, offset)),
            Instr::Jalr { rd, rs1, offset } => link_step(rd, self.address(rs1, offset) / 2 * 2),
            Instr::Branch {
                op,
                rs1,
                rs2,
                offset,
            } => self.branch_step(op, rs1, rs2, offset),
            Instr::Fence { .. } => Step::Advance,
            Instr::Ecall => self.call_step(),
            Instr::Ebreak => Step::Halt(HaltCause::Breakpoint),
            _ => unreachable!(),
        }
    }

    #[tactic(auto, unfolding(flat_model::specs::Hart::instr_action))]
    fn instr_step(&self, items: &Items, instr: Instr) -> Step
        ensures value { action_by self.now.hart result ≡ instr_action items.now self.now.hart instr }
        ensures inside { IsInside items.now.size result }
    {
        match instr {
            Instr::Load {
                op,
                rd,
                rs1,
                offset,
            } => load_step(items, op, rd, self.address(rs1, offset)),
            Instr::Store {
                op,
                rs1,
                rs2,
                offset,
            } => store_step(items, op, self.register(rs2), self.address(rs1, offset)),
            Instr::Lr { rd, rs1, .. } => reserve_step(items, rd, self.register(rs1)),
            Instr::Sc { rd, rs1, rs2, .. } => {
                store_if_reserved_step(items, rd, self.register(rs2), self.register(rs1))
            }
            Instr::Amo {
                op,
                rd,
                rs1,
                rs2,
                ..
            } => change_step(items, op, rd, self.register(rs2), self.register(rs1)),
            _ => self.plain_step(instr),
        }
    }

    /// What the hart's next instruction does, as far as that is known before the words of its item are. It is put where the caller
    /// wants it: a copy of it costs a tenth of an instruction that completes.
    #[tactic(auto, unfolding(flat_model::specs::Hart::action_of))]
    pub fn next_step_into(&self, code: &Code, items: &Items, step: &mut Step)
        ensures value { action_by self.now.hart step.new ≡ action_of code.now items.now self.now.hart }
        ensures inside { IsInside items.now.size step.new }
    {
        match self.fetch(code) {
            Ok(instr) => *step = self.instr_step(items, instr),
            Err(cause) => *step = Step::Halt(cause),
        }
    }

    /// What the hart's next instruction needs.
    #[tactic(auto, unfolding(flat_model::specs::Hart::ask_of))]
    pub fn ask(&self, code: &Code, items: &Items) -> Ask
        ensures { result ≡ ask_of code.now items.now self.now.hart }
    {
        let mut step = Step::Advance;
        self.next_step_into(code, items, &mut step);
        step.ask()
    }

    fn set_register(&mut self, reg: Reg, value: u32)
        ensures { self.new ≡ with_hart self.old (with_register self.old.hart reg value) }
    {
        if 0 < reg.0 && reg.0 < 32 {
            self.registers[reg.0 as usize] = value;
        }
    }

    fn advance(&mut self)
        ensures { self.new ≡ with_hart self.old (advanced self.old.hart) }
    {
        self.pc = self.pc.wrapping_add(4);
    }

    /// Writes a register and goes on to the next instruction in the code.
    fn write(&mut self, reg: Reg, value: u32)
        ensures { self.new ≡ with_hart self.old (written self.old.hart reg value) }
    {
        self.set_register(reg, value);
        self.advance();
    }

    /// Puts the pc behind the instruction into a register and goes on at the target.
    fn link(&mut self, reg: Reg, target: u32)
        ensures { self.new ≡ with_hart self.old (record (with_register self.old.hart reg (next_pc self.old.hart)) { pc = target }) }
    {
        self.set_register(reg, self.pc.wrapping_add(4));
        self.pc = target;
    }

    fn load<const WORDS: usize>(
        &mut self,
        words: &Words<WORDS>,
        op: LoadOp,
        rd: Reg,
        access: Access,
    ) -> Effect
        requires { IsInWord (4 * WORDS) (load_bytes op) access }
        ensures { IsFinished (loading self.old.hart rd (access_value access) words.now op) self.old.done self.new result words.now }
    {
        let word = words.w[access.place];
        self.write(rd, loaded_value(op, word, access.byte_place()));
        Effect::Load {
            address: access.word_address(),
            word,
        }
    }

    fn reserve<const WORDS: usize>(
        &mut self,
        words: &Words<WORDS>,
        rd: Reg,
        access: Access,
    ) -> Effect
        requires { IsInWord (4 * WORDS) 4 access }
        ensures { IsFinished (reserving self.old.hart rd (access_value access) words.now) self.old.done self.new result words.now }
    {
        let word = words.w[access.place];
        self.write(rd, word);
        Effect::Lr {
            address: access.word_address(),
            word,
        }
    }

    fn store<const WORDS: usize>(
        &mut self,
        words: &mut Words<WORDS>,
        op: StoreOp,
        value: u32,
        access: Access,
    ) -> Effect
        requires { IsInWord (4 * WORDS) (store_bytes op) access }
        ensures { IsFinished (storing self.old.hart op value (access_value access) words.old) self.old.done self.new result words.new }
    {
        let before = words.w[access.place];
        let after = stored_word(op, before, access.byte_place(), value);
        words.w[access.place] = after;
        self.advance();
        Effect::Store {
            address: access.word_address(),
            before,
            after,
        }
    }

    /// Puts 0 into the register where the word is stored, and 1 where it isn't.
    fn store_if<const WORDS: usize>(
        &mut self,
        sc_ok: bool,
        words: &mut Words<WORDS>,
        rd: Reg,
        value: u32,
        access: Access,
    ) -> Effect
        requires { IsInWord (4 * WORDS) 4 access }
        ensures { IsFinished (storing_if sc_ok self.old.hart rd value (access_value access) words.old)
            self.old.done self.new result words.new }
    {
        let address = access.word_address();
        if !sc_ok {
            self.write(rd, 1);
            return Effect::ScFail { address };
        }
        let before = words.w[access.place];
        words.w[access.place] = value;
        self.write(rd, 0);
        Effect::ScOk {
            address,
            before,
            after: value,
        }
    }

    fn change<const WORDS: usize>(
        &mut self,
        words: &mut Words<WORDS>,
        op: AmoOp,
        rd: Reg,
        value: u32,
        access: Access,
    ) -> Effect
        requires { IsInWord (4 * WORDS) 4 access }
        ensures { IsFinished (changing self.old.hart op rd value (access_value access) words.old) self.old.done self.new result words.new }
    {
        let before = words.w[access.place];
        let after = amo_result(op, before, value);
        words.w[access.place] = after;
        self.write(rd, before);
        Effect::Amo {
            address: access.word_address(),
            before,
            after,
        }
    }

    #[inline(always)]
    fn take<const WORDS: usize>(
        &mut self,
        step: Step,
        words: &mut Words<WORDS>,
        sc_ok: bool,
    ) -> Effect
        requires goes_on { GoesOn (action_by self.old.hart step) }
        requires inside { IsInside (4 * WORDS) step }
        ensures { IsFinished (finish_by (action_by self.old.hart step) self.old.hart words.old sc_ok)
            self.old.done self.new result words.new }
    {
        match step {
            Step::Halt(_) => unreachable!(),
            Step::Advance => self.advance(),
            Step::Write(rd, value) => self.write(rd, value),
            Step::Jump(target) => self.pc = target,
            Step::Link(rd, target) => self.link(rd, target),
            Step::Put(byte) => {
                self.advance();
                return Effect::Put { byte };
            }
            Step::Load(op, rd, access) => return self.load(words, op, rd, access),
            Step::Store(op, value, access) => return self.store(words, op, value, access),
            Step::Reserve(rd, access) => return self.reserve(words, rd, access),
            Step::StoreIfReserved(rd, value, access) => {
                return self.store_if(sc_ok, words, rd, value, access);
            }
            Step::Change(op, rd, value, access) => {
                return self.change(words, op, rd, value, access);
            }
        }
        Effect::Plain
    }

    /// Carries out a step that the hart's next instruction does, on the words of its item. An SC stores where `sc_ok` holds.
    #[inline(always)]
    pub fn carry_out<const WORDS: usize>(
        &mut self,
        step: &Step,
        words: &mut Words<WORDS>,
        sc_ok: bool,
    ) -> Effect
        requires goes_on { GoesOn (action_by self.old.hart step.now) }
        requires inside { IsInside (4 * WORDS) step.now }
        requires count { self.old.done < 4294967295 }
        ensures { IsFinished (finish_by (action_by self.old.hart step.now) self.old.hart words.old sc_ok)
            (self.old.done + 1) self.new result words.new }
    {
        let effect = self.take(*step, words, sc_ok);
        self.done += 1;
        effect
    }

    /// Carries out the hart's next instruction on the words of its item. An SC stores where `sc_ok` holds.
    #[tactic(auto, unfolding(flat_model::specs::Hart::finish_of, flat_model::specs::Hart::ask_of))]
    pub fn finish<const WORDS: usize>(
        &mut self,
        code: &Code,
        items: &Items,
        words: &mut Words<WORDS>,
        sc_ok: bool,
    ) -> Effect
        requires running { self.old.hart.halt ≡ None }
        requires ready { IsReady (ask_of code.now items.now self.old.hart) }
        requires size { 4 * WORDS ≡ items.now.size }
        requires count { self.old.done < 4294967295 }
        ensures effect { result ≡ (finish_of code.now items.now self.old.hart words.old sc_ok).effect }
        ensures hart { self.new.hart ≡ (finish_of code.now items.now self.old.hart words.old sc_ok).hart }
        ensures words { words.new ≡ (finish_of code.now items.now self.old.hart words.old sc_ok).words }
        ensures done { self.new.done ≡ self.old.done + 1 }
    {
        let mut step = Step::Advance;
        self.next_step_into(code, items, &mut step);
        self.carry_out(&step, words, sc_ok)
    }

    /// Stops the hart. Nothing else changes.
    pub fn halt(&mut self, cause: HaltCause)
        ensures { self.new ≡ with_hart self.old (record self.old.hart { halt = Some cause }) }
    {
        self.halt = Some(cause);
    }
}
