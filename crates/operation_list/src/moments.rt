//! What a hart's operations between two grants share, and the rest of each.

ghost use Rattle.std.specs.Prelude.{◌≡◌, ◌<◌, ◌↔◌, IsTrue, length};
ghost use Rattle.operation_list.specs.Kept.{key_at, moment_of, op_of};

use ddm_types::{ChildNo, Effect, HartNo, Key, Op, Stamp};

/// Whose an operation is, and its key without the last number. A hart's operations between two grants share them.
#[derive(Clone, Copy)]
pub struct Moment {
    pub s0: u32,
    pub c0: u32,
    pub s1: u32,
    pub c1: u32,
    pub s2: u32,
    pub c2: u32,
    pub s3: u32,
    pub c3: u32,
    pub hart: HartNo,
}

/// The rest of an operation, and the number of its moment.
#[derive(Clone, Copy)]
pub struct Brief {
    pub moment: u32,
    pub i: u32,
    pub pc: u32,
    pub effect: Effect,
}

/// The moment of an operation.
pub fn moment_of(op: &Op) -> Moment
    ensures { result ≡ moment_of op.now }
{
    Moment {
        s0: op.key.s0,
        c0: op.key.c0,
        s1: op.key.s1,
        c1: op.key.c1,
        s2: op.key.s2,
        c2: op.key.c2,
        s3: op.key.s3,
        c3: op.key.c3,
        hart: op.hart,
    }
}

impl Moment {
    /// Whether it is the moment of an operation. All its numbers are compared, whichever differs: so the compiler
    /// takes several at once, and
    /// the processor has one branch to guess.
    #[inline(always)]
    pub fn is_of(&self, op: &Op) -> bool
        ensures { IsTrue result ↔ (self.now ≡ moment_of op.now) }
    {
        (self.s0 == op.key.s0)
            & (self.c0 == op.key.c0)
            & (self.s1 == op.key.s1)
            & (self.c1 == op.key.c1)
            & (self.s2 == op.key.s2)
            & (self.c2 == op.key.c2)
            & (self.s3 == op.key.s3)
            & (self.c3 == op.key.c3)
            & (self.hart.0 == op.hart.0)
    }

    /// The key of its operation with this last number.
    #[inline(always)]
    fn key_at(&self, i: u32) -> Key
        ensures { result ≡ key_at self.now i }
    {
        let stamp = Stamp::zero()
            .at_level(0, self.s0)
            .at_level(1, self.s1)
            .at_level(2, self.s2)
            .at_level(3, self.s3);
        Key::zero()
            .at_level(0, stamp, ChildNo(self.c0))
            .at_level(1, stamp, ChildNo(self.c1))
            .at_level(2, stamp, ChildNo(self.c2))
            .at_level(3, stamp, ChildNo(self.c3))
            .counted(i)
    }
}

/// The operation that was kept as this.
#[inline(always)]
pub fn op_of(moments: &[Moment], brief: &Brief) -> Op
    requires { brief.now.moment < length moments.now }
    ensures { result ≡ op_of moments.now brief.now }
{
    let moment = &moments[brief.moment as usize];
    Op {
        key: moment.key_at(brief.i),
        hart: moment.hart,
        pc: brief.pc,
        effect: brief.effect,
    }
}
