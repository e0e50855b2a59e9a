//! Operations in the order in which they completed.

ghost use Rattle.std.specs.Prelude.{◌≡◌, ◌<◌, ◌≤◌, ◌+◌, ◌-◌, ◌^◌, ◌++◌, ◌∷◌, [], length, max, is_ok, slice_index_or};
ghost use Rattle.std.specs.Prelude.{OnErr, OnOk, vec_capacity, if◌then◌else◌};
ghost use Rattle.ddm_types.specs.declared.operations.Op.{Op};
ghost use Rattle.ddm_types.specs.Keys.{key_less};
ghost use Rattle.operation_list.specs.Kept.{Extends, is_at, moment_of};

use crate::moments::{Brief, Moment, moment_of, op_of};
use ddm_types::{NoMemory, Op};
use std::alloc::Global;
use std::marker::Model;

/// For so many harts it is remembered which moment was their last one.
const HARTS: usize = 64;

/// The most operations that are kept, since the number of a moment is a word.
const MOST: usize = u32::MAX as usize;

/// Operations in the order in which they completed. A contract sees them, and for how many more there is memory.
#[derive(Drop)]
pub struct Operations {
    moments: Vec<Moment>,
    briefs: Vec<Brief>,
    // The last moment of each hart, by its number without multiples of `HARTS`. Where it is another one, no more than memory is lost.
    latest: [u32; HARTS],
    spare: usize,
}

impl Model for Operations {
    ghost use Rattle.std.specs.Prelude.{length, map, vec_capacity};
    ghost use Rattle.operation_list.specs.Kept.{HasRoom, HaveMoments, OpList, op_of};

    ghost Value = { OpList };

    ghost view = { λ o. record { items = map (op_of o.moments.items) o.briefs.items; spare = o.spare } };

    ghost invariant = { λ o. HaveMoments o.moments.items o.briefs.items
        × HasRoom (length o.briefs.items) (length o.moments.items) o.spare (vec_capacity o.briefs) (vec_capacity o.moments) };
}

/// Puts these in place of those that are there, where there is memory for them.
fn refill<T: Copy>(list: &mut Vec<T>, others: &[T])
    requires { length others.now ≤ vec_capacity list.old }
    ensures items { list.new.items ≡ others.now }
    ensures capacity { vec_capacity list.old ≤ vec_capacity list.new }
{
    list.clear();
    if list.extend_from_slice(others).is_err() {
        unreachable!();
    }
}

/// The number of a new moment, that of an operation, which is remembered. Called for few operations of a run, if any.
#[inline(never)]
fn new_number(moments: &mut Vec<Moment>, latest: &mut [u32; HARTS], place: usize, op: &Op) -> u32
    requires room { length moments.old.items < vec_capacity moments.old }
    requires few { length moments.old.items < 4294967295 }
    requires place { place < 64 }
    ensures at { is_at moments.new.items result (moment_of op.now) }
    ensures others { Extends moments.old.items moments.new.items }
    ensures capacity { vec_capacity moments.old ≤ vec_capacity moments.new }
{
    let number = moments.len() as u32;
    moments.push_reserved(moment_of(op));
    latest[place] = number;
    number
}

/// The number of an operation's moment: that of the last one of its hart, if it is the same, or of a new one.
#[inline(always)]
fn number_of(moments: &mut Vec<Moment>, latest: &mut [u32; HARTS], op: &Op) -> u32
    requires room { length moments.old.items < vec_capacity moments.old }
    requires few { length moments.old.items < 4294967295 }
    ensures at { is_at moments.new.items result (moment_of op.now) }
    ensures others { Extends moments.old.items moments.new.items }
    ensures capacity { vec_capacity moments.old ≤ vec_capacity moments.new }
{
    let place = op.hart.0 as usize % HARTS;
    let number = latest[place];
    match moments.get(number as usize) {
        Some(there) if there.is_of(op) => number,
        _ => new_number(moments, latest, place, op),
    }
}

impl Operations {
    /// No operations, and no memory for any.
    pub fn new(alloc: Global) -> Self
        ensures { result ≡ record { items = []; spare = 0 } }
    {
        Operations {
            moments: Vec::new(alloc),
            briefs: Vec::new(alloc),
            latest: [0; HARTS],
            spare: 0,
        }
    }

    /// Takes memory so that at least `n` more need none. There is none for more than 4,294,967,295 in all.
    pub fn reserve(&mut self, n: usize) -> Result<(), NoMemory>
        ensures { self.new ≡ record self.old { spare = (if is_ok result then max self.old.spare n else self.old.spare) } }
    {
        if self.spare < n {
            if n > MOST - self.briefs.len() {
                return Err(NoMemory);
            }
            self.briefs.reserve(n)?;
            let more = self.briefs.len() + n - self.moments.len();
            self.moments.reserve(more)?;
            self.spare = n;
        }
        Ok(())
    }

    /// Puts an operation behind the others. It takes no memory.
    #[inline(always)]
    pub fn push(&mut self, op: &Op)
        requires { 0 < self.old.spare }
        ensures { self.new ≡ record { items = self.old.items ++ op.now ∷ []; spare = self.old.spare - 1 } }
    {
        let moment = number_of(&mut self.moments, &mut self.latest, op);
        self.briefs.push_reserved(Brief {
            moment,
            i: op.key.i,
            pc: op.pc,
            effect: op.effect,
        });
        self.spare -= 1;
    }

    /// Puts an operation behind the others, for which memory is taken if there is none.
    pub fn add(&mut self, op: &Op) -> Result<(), NoMemory>
        ensures ok { OnOk result (self.new.items ≡ self.old.items ++ op.now ∷ []) }
        ensures err { OnErr result (self.new ≡ self.old) }
    {
        self.reserve(1)?;
        self.push(op);
        Ok(())
    }

    /// Forgets them. The memory stays.
    pub fn clear(&mut self)
        ensures { self.new ≡ record self.old { items = [] } }
    {
        self.moments.clear();
        self.briefs.clear();
    }

    /// Becomes a copy of others. It takes no memory, and keeps what it has.
    pub fn copy_from(&mut self, other: &Operations)
        requires { length other.now.items ≤ length self.old.items + self.old.spare }
        ensures items { self.new.items ≡ other.now.items }
        ensures spare { self.new.spare ≡ length self.old.items + self.old.spare - length other.now.items }
    {
        self.spare = self.briefs.len() + self.spare - other.briefs.len();
        refill(&mut self.briefs, &other.briefs);
        refill(&mut self.moments, &other.moments);
    }

    #[inline(always)]
    pub fn len(&self) -> usize
        ensures length { result ≡ length self.now.items }
        ensures room { result + self.now.spare < 2 ^ 64 }
    {
        self.briefs.len()
    }

    /// Whether the operation at one place has a lesser key than the one at another. Those of one moment differ in the last number alone.
    #[inline(always)]
    #[tactic(auto, using(crate::proofs::SameMoment::same_less))]
    pub fn is_before(&self, one: usize, other: usize) -> bool
        requires one { one < length self.now.items }
        requires other { other < length self.now.items }
        ensures { (d : Op) → result ≡ key_less (slice_index_or self.now.items one d).key (slice_index_or self.now.items other d).key }
    {
        let (first, second) = (&self.briefs[one], &self.briefs[other]);
        if first.moment == second.moment {
            first.i < second.i
        } else {
            self.get(one).key.precedes(&self.get(other).key)
        }
    }

    /// The operation that so many are before.
    #[inline(always)]
    pub fn get(&self, place: usize) -> Op
        requires { place < length self.now.items }
        ensures { (d : Op) → result ≡ slice_index_or self.now.items place d }
    {
        op_of(&self.moments, &self.briefs[place])
    }
}
