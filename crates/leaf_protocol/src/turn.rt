//! A turn of a hart at its leaf.

ghost use Rattle.std.specs.Prelude.{◌≡◌, ◌+◌, ◌*◌, ◌<◌, ◌^◌, ℕ, Some, None, true, false, length, if◌then◌else◌};
ghost use Rattle.leaf_protocol.specs.DdmTypes.declared.answers.TurnAnswer.TheVariants.{Retired};
ghost use Rattle.leaf_protocol.specs.DdmTypes.ItemTable.{item_count};
ghost use Rattle.leaf_protocol.specs.DdmTypes.declared.keys.Key.{Key as KeyValue};
ghost use Rattle.leaf_protocol.specs.DdmTypes.declared.sizes.LeafState.TheVariants.{Exclusive, Shared};
ghost use Rattle.leaf_protocol.specs.FlatModel.declared.Ask.TheVariants.{Conditional, NeedsShared};
ghost use Rattle.leaf_protocol.specs.FlatModel.Hart.{ask_of, finish_of};
ghost use Rattle.leaf_protocol.specs.FlatModel.Flat.{asked_item, has_reserved};
ghost use Rattle.rv_hart.specs.Steps.{IsReady};
ghost use Rattle.leaf_protocol.specs.TreeModel.State.States.{is_reading};
ghost use Rattle.leaf_protocol.specs.TreeModel.State.Leaf.{free_way, leaf_entry, state_at, waiting_item};
ghost use Rattle.leaf_protocol.specs.TreeModel.Turns.HartTurn.{change_here, deed_by_need, deed_of_change};
ghost use Rattle.leaf_protocol.specs.TreeModel.Turns.HartTurn.{deed_to_fetch, halts, leaf_step, need_of};
ghost use Rattle.leaf_protocol.specs.TreeModel.Turns.HartTurn.{need_to_read, need_to_write, upgrades, words_here};
ghost use Rattle.leaf_protocol.specs.BusyLaws.Reasons.{busy_cause, hart_reason};
ghost use Rattle.leaf_protocol.specs.LrScLaws.Failing.{leaf_fails, sc_failed};
ghost use Rattle.leaf_protocol.specs.Entries.{standing_place};
ghost use Rattle.leaf_protocol.specs.Leaf.{CanTry, IsDone, IsStep, write_ask};

use crate::leaf::Leaf;
use crate::of_ddm_types::{
    BusyCause, Code, HaltCause, HartNo, ItemId, Items, Key, LeafState, Op, TurnAnswer, TxKind,
    Words,
};
use rv_hart::{Ask, Step};

impl<const WAYS: usize, const WORDS: usize> Leaf<WAYS, WORDS> {
    /// One try of the hart's next instruction, of which `now` is the key if it completes. `victim` chooses the way that a new
    /// item takes where its set is full. The answer is put where the caller wants it: a copy of it costs more than a turn of a hart
    /// that waits.
    #[inline(always)]
    pub fn hart_turn_into(
        &mut self,
        code: &Code,
        items: &Items,
        now: Key,
        victim: u8,
        answer: &mut TurnAnswer,
    )
        requires items { item_count items.now ≡ length self.old.ways }
        requires words { items.now.size ≡ 4 * WORDS }
        requires count { self.old.done + 1 < 2 ^ 32 }
        ensures answer { answer.new ≡ (leaf_step code.now items.now now victim self.old).answer }
        ensures after { self.new ≡ (leaf_step code.now items.now now victim self.old).leaf }
    {
        if let Some(cause) = self.hart.halted() {
            *answer = TurnAnswer::Halted(cause);
            return;
        }
        if let Some(item) = self.entries.waiting() {
            *answer = TurnAnswer::Waiting(item);
            return;
        }
        self.try_next(code, items, now, victim, answer);
    }

    /// One try of the hart's next instruction, as `hart_turn_into` makes it: busy exactly for its reason. An SC fails exactly where its
    /// item isn't reserved.
    pub fn hart_turn(&mut self, code: &Code, items: &Items, now: Key, victim: u8) -> TurnAnswer
        requires items { item_count items.now ≡ length self.old.ways }
        requires words { items.now.size ≡ 4 * WORDS }
        requires count { self.old.done + 1 < 2 ^ 32 }
        ensures answer { result ≡ (leaf_step code.now items.now now victim self.old).answer }
        ensures after { self.new ≡ (leaf_step code.now items.now now victim self.old).leaf }
        ensures busy { busy_cause result ≡ hart_reason code.now items.now self.old }
        ensures failing { sc_failed result ≡ leaf_fails code.now items.now self.old }
    {
        let mut answer = TurnAnswer::Empty;
        self.hart_turn_into(code, items, now, victim, &mut answer);
        answer
    }

    /// The next instruction of a hart that runs, where no entry waits.
    #[inline(always)]
    fn try_next(
        &mut self,
        code: &Code,
        items: &Items,
        now: Key,
        victim: u8,
        answer: &mut TurnAnswer,
    )
        requires { CanTry WORDS items.now self.old }
        ensures { IsDone now self.old
            (deed_by_need code.now items.now victim self.old
            (need_of (ask_of code.now items.now self.old.hart) self.old)) answer.new self.new }
    {
        let mut step = Step::Advance;
        self.find_step(code, items, &mut step);
        match self.asked(code, items, &step) {
            Ask::Plain => self.compute(code, items, &step, now, answer),
            Ask::Put(_) => self.compute(code, items, &step, now, answer),
            Ask::NeedsShared { item, lr } => {
                self.read(code, items, &step, now, item, lr, victim, answer);
            }
            Ask::NeedsExclusive { item } => {
                self.write(code, items, &step, now, item, false, victim, answer);
            }
            Ask::Conditional { item } => {
                self.write_if_reserved(code, items, &step, now, item, victim, answer);
            }
            Ask::Halt(cause) => self.halt(cause, answer),
        }
    }

    /// What the hart's next instruction does.
    #[tactic(auto, using(crate::proofs::Steps::step_is))]
    fn find_step(&self, code: &Code, items: &Items, step: &mut Step)
        requires { items.now.size ≡ 4 * WORDS }
        ensures { IsStep WORDS code.now items.now self.now.hart step.new }
    {
        self.hart.next_step_into(code, items, step);
    }

    /// What it needs, where this is its step.
    fn asked(&self, _code: &Code, _items: &Items, step: &Step) -> Ask
        requires { IsStep WORDS _code.now _items.now self.now.hart step.now }
        ensures { result ≡ ask_of _code.now _items.now self.now.hart }
    {
        step.ask()
    }

    /// The instruction halts its hart.
    fn halt(&mut self, cause: HaltCause, answer: &mut TurnAnswer)
        ensures { (now : KeyValue) → IsDone now self.old (halts cause) answer.new self.new }
    {
        self.hart.halt(cause);
        *answer = TurnAnswer::Halted(cause);
    }

    /// The instruction, of which this is the step, completes on these words. An SC stores where `stores` holds.
    #[inline(always)]
    fn finish(
        &mut self,
        _code: &Code,
        _items: &Items,
        step: &Step,
        now: Key,
        words: &mut Words<WORDS>,
        stores: bool,
        answer: &mut TurnAnswer,
    )
        requires can { CanTry WORDS _items.now self.old }
        requires step { IsStep WORDS _code.now _items.now self.old.hart step.now }
        requires ready { IsReady (ask_of _code.now _items.now self.old.hart) }
        ensures answer { answer.new
            ≡ Retired (record {
              key = now;
              hart = self.old.number;
              pc = self.old.hart.pc;
              effect = (finish_of _code.now _items.now self.old.hart words.old stores).effect;
            }) }
        ensures after { self.new
            ≡ record self.old {
              hart = (finish_of _code.now _items.now self.old.hart words.old stores).hart;
              done = self.old.done + 1;
            } }
        ensures words { words.new ≡ (finish_of _code.now _items.now self.old.hart words.old stores).words }
    {
        let pc = self.hart.pc();
        let effect = self.hart.carry_out(step, words, stores);
        *answer = TurnAnswer::Retired(Op {
            key: now,
            hart: HartNo(self.number.0),
            pc,
            effect,
        });
    }

    /// The instruction needs no words.
    #[inline(always)]
    fn compute(
        &mut self,
        code: &Code,
        items: &Items,
        step: &Step,
        now: Key,
        answer: &mut TurnAnswer,
    )
        requires can { CanTry WORDS items.now self.old }
        requires step { IsStep WORDS code.now items.now self.old.hart step.now }
        requires ready { IsReady (ask_of code.now items.now self.old.hart) }
        requires plain { asked_item (ask_of code.now items.now self.old.hart) ≡ None }
        ensures { IsDone now self.old (deed_of_change (change_here code.now items.now self.old)) answer.new self.new }
    {
        let mut words = Words { w: [0; WORDS] };
        self.finish(code, items, step, now, &mut words, false, answer);
    }

    /// An SC stores with its reservation, and fails without it.
    fn write_if_reserved(
        &mut self,
        code: &Code,
        items: &Items,
        step: &Step,
        now: Key,
        item: ItemId,
        victim: u8,
        answer: &mut TurnAnswer,
    )
        requires can { CanTry WORDS items.now self.old }
        requires step { IsStep WORDS code.now items.now self.old.hart step.now }
        requires asks { ask_of code.now items.now self.old.hart ≡ Conditional item }
        ensures { IsDone now self.old
            (deed_by_need code.now items.now victim self.old (need_of (Conditional item) self.old)) answer.new
            self.new }
    {
        if self.reservation.covers(item) {
            self.write(code, items, step, now, item, true, victim, answer);
        } else {
            self.fail(code, items, step, now, item, answer);
        }
    }

    /// An SC without its reservation fails.
    fn fail(
        &mut self,
        code: &Code,
        items: &Items,
        step: &Step,
        now: Key,
        item: ItemId,
        answer: &mut TurnAnswer,
    )
        requires can { CanTry WORDS items.now self.old }
        requires step { IsStep WORDS code.now items.now self.old.hart step.now }
        requires asks { ask_of code.now items.now self.old.hart ≡ Conditional item }
        requires unreserved { has_reserved self.old.reservation item ≡ false }
        ensures { IsDone now self.old (deed_of_change (change_here code.now items.now self.old)) answer.new self.new }
    {
        let mut words = Words { w: [0; WORDS] };
        self.finish(code, items, step, now, &mut words, false, answer);
        self.reservation.clear();
    }

    /// A load or an LR completes on any entry.
    fn read(
        &mut self,
        code: &Code,
        items: &Items,
        step: &Step,
        now: Key,
        item: ItemId,
        lr: bool,
        victim: u8,
        answer: &mut TurnAnswer,
    )
        requires can { CanTry WORDS items.now self.old }
        requires step { IsStep WORDS code.now items.now self.old.hart step.now }
        requires asks { ask_of code.now items.now self.old.hart ≡ NeedsShared item lr }
        ensures { IsDone now self.old
            (deed_by_need code.now items.now victim self.old (need_to_read item (leaf_entry item self.old)))
            answer.new self.new }
    {
        match self.entries.words(item) {
            Some(words) => self.load(code, items, step, now, item, lr, words, answer),
            None => self.fetch(item, LeafState::Reading, victim, answer),
        }
    }

    /// A load or an LR completes on these words of its item.
    fn load(
        &mut self,
        code: &Code,
        items: &Items,
        step: &Step,
        now: Key,
        item: ItemId,
        lr: bool,
        words: Words<WORDS>,
        answer: &mut TurnAnswer,
    )
        requires can { CanTry WORDS items.now self.old }
        requires step { IsStep WORDS code.now items.now self.old.hart step.now }
        requires asks { ask_of code.now items.now self.old.hart ≡ NeedsShared item lr }
        requires here { words ≡ words_here self.old item }
        ensures { IsDone now self.old (deed_of_change (change_here code.now items.now self.old)) answer.new self.new }
    {
        let mut left = words;
        self.finish(code, items, step, now, &mut left, false, answer);
        if lr {
            self.reservation.set(item);
        }
    }

    /// A store, an AMO, or an SC with its reservation completes on E.
    #[inline(always)]
    fn write(
        &mut self,
        code: &Code,
        items: &Items,
        step: &Step,
        now: Key,
        item: ItemId,
        conditional: bool,
        victim: u8,
        answer: &mut TurnAnswer,
    )
        requires can { CanTry WORDS items.now self.old }
        requires step { IsStep WORDS code.now items.now self.old.hart step.now }
        requires asks { ask_of code.now items.now self.old.hart ≡ write_ask conditional item }
        requires reserved { conditional ≡ true → has_reserved self.old.reservation item ≡ true }
        ensures { IsDone now self.old
            (deed_by_need code.now items.now victim self.old (need_to_write item (leaf_entry item self.old)))
            answer.new self.new }
    {
        let Some((state, place)) = self.entries.seek(item) else {
            self.fetch(item, LeafState::ReadingWaiting, victim, answer);
            return;
        };
        match state {
            LeafState::Exclusive => {
                self.store(code, items, step, now, item, place, conditional, answer);
            }
            LeafState::Shared => self.upgrade(item, place, answer),
            LeafState::Waiting | LeafState::Reading | LeafState::ReadingWaiting => {
                *answer = TurnAnswer::Waiting(item);
            }
        }
    }

    /// The instruction stores to its item, which is here Exclusive, at this place.
    #[inline(always)]
    fn store(
        &mut self,
        code: &Code,
        items: &Items,
        step: &Step,
        now: Key,
        item: ItemId,
        place: Option<usize>,
        conditional: bool,
        answer: &mut TurnAnswer,
    )
        requires can { CanTry WORDS items.now self.old }
        requires step { IsStep WORDS code.now items.now self.old.hart step.now }
        requires asks { ask_of code.now items.now self.old.hart ≡ write_ask conditional item }
        requires reserved { conditional ≡ true → has_reserved self.old.reservation item ≡ true }
        requires exclusive { state_at item self.old ≡ Some Exclusive }
        requires place { place ≡ standing_place self.old.sizes.sets WAYS item self.old.ways }
        ensures { IsDone now self.old (deed_of_change (change_here code.now items.now self.old)) answer.new self.new }
    {
        let mut words = self.entries.words_at(item, place);
        self.finish(code, items, step, now, &mut words, conditional, answer);
        self.entries
            .set_at(item, place, LeafState::Exclusive, words);
        if conditional {
            self.reservation.clear();
        }
    }

    /// The item is here Shared, at this place, and is to be written: an erase of all other copies is asked for.
    fn upgrade(&mut self, item: ItemId, place: Option<usize>, answer: &mut TurnAnswer)
        requires inside { item < length self.old.ways }
        requires shared { state_at item self.old ≡ Some Shared }
        requires place { place ≡ standing_place self.old.sizes.sets WAYS item self.old.ways }
        requires alone { waiting_item self.old.ways self.old.buffer ≡ None }
        ensures { (now : KeyValue) → IsDone now self.old (upgrades item (words_here self.old item)) answer.new self.new }
    {
        self.entries.set_state_at(item, place, LeafState::Waiting);
        self.slot = Some((TxKind::EraseTx, item));
        *answer = TurnAnswer::Issued(TxKind::EraseTx, item);
    }

    /// The item isn't here: a way is taken for it, and a read is asked for.
    fn fetch(&mut self, item: ItemId, state: LeafState, victim: u8, answer: &mut TurnAnswer)
        requires inside { item < length self.old.ways }
        requires absent { leaf_entry item self.old ≡ None }
        requires reading { is_reading state ≡ true }
        requires alone { waiting_item self.old.ways self.old.buffer ≡ None }
        ensures { (now : KeyValue) →
            IsDone now self.old
            (deed_to_fetch item state victim self.old (free_way self.old.sizes item self.old.ways)) answer.new
            self.new }
    {
        let Some(way) = self.entries.make_way(item, victim) else {
            *answer = TurnAnswer::Busy(BusyCause::BufferFull(self.number));
            return;
        };
        self.entries.enter(item, way, state);
        self.slot = Some((TxKind::ReadTx, item));
        *answer = TurnAnswer::Issued(TxKind::ReadTx, item);
    }
}
