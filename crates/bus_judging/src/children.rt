//! What the rules of a bus ask of its children, gathered child by child.

ghost use Rattle.std.specs.Prelude.{◌≡◌, ◌<◌, ◌+◌, ◌^◌, ◌++◌, ◌∷◌, [], List, length, if◌then◌else◌};
ghost use Rattle.bus_judging.specs.TreeModel.State.States.{is_exclusive, is_held, is_shared};
ghost use Rattle.bus_judging.specs.TreeModel.State.Values.{Note};
ghost use Rattle.bus_judging.specs.TreeModel.State.Directory.{is_eraser, is_reader, is_up_erase};
ghost use Rattle.tree_rules.specs.Bus.Faces.{ChildFace as Face};
ghost use Rattle.tree_rules.specs.Bus.Item.{gives_none, gives_one, giver_holds, implies, may_erase};
ghost use Rattle.bus_judging.specs.Children.{bits_with, facts_among, with_child};

use crate::of_ddm_types::Hold;
use std::marker::Model;

/// What a bus sees of a child, of one item.
#[derive(Clone, Copy)]
pub struct ChildFace {
    pub hold: Hold,
    /// A read or an erase was granted and isn't served yet.
    pub reads: bool,
    pub erases: bool,
    /// How many replies of the item it has.
    pub replies: u32,
    pub answers: bool,
}

impl Model for ChildFace {
    ghost use Rattle.tree_rules.specs.Bus.Faces.{ChildFace};

    ghost Value = { ChildFace };

    ghost view = { λ c. record { hold = c.hold; reads = c.reads; erases = c.erases; replies = c.replies; answers = c.answers } };

    ghost inverse = { λ c. record { hold = c.hold; reads = c.reads; erases = c.erases; replies = c.replies; answers = c.answers } };
}

/// What the rules of a bus ask of its children, of one item.
#[derive(Clone, Copy)]
pub struct ChildrenFacts {
    count: u32,
    held: bool,
    sole: bool,
    exclusive: bool,
    one_gift: bool,
    no_gift: bool,
    givers: bool,
    readers: bool,
    eraser: bool,
    reads: bool,
    erases: bool,
}

impl Model for ChildrenFacts {
    ghost use Rattle.bus_judging.specs.Children.{ChildrenFacts};

    ghost Value = { ChildrenFacts };

    ghost view = { λ f. record {
      count = f.count;
      held = f.held;
      sole = f.sole;
      exclusive = f.exclusive;
      one_gift = f.one_gift;
      no_gift = f.no_gift;
      givers = f.givers;
      readers = f.readers;
      eraser = f.eraser;
      reads = f.reads;
      erases = f.erases;
    } };

    ghost inverse = { λ f. record {
      count = f.count;
      held = f.held;
      sole = f.sole;
      exclusive = f.exclusive;
      one_gift = f.one_gift;
      no_gift = f.no_gift;
      givers = f.givers;
      readers = f.readers;
      eraser = f.eraser;
      reads = f.reads;
      erases = f.erases;
    } };
}

/// The bits that the rules of a bus ask of its children and of the parent's parked copy. That what was granted fits what is held isn't
/// among them: the rules of the buses below say so.
#[derive(Clone, Copy)]
pub(crate) struct Bits {
    pub held: bool,
    pub sole: bool,
    pub exclusive: bool,
    pub one_gift: bool,
    pub no_gift: bool,
    pub givers: bool,
    pub readers: bool,
    pub eraser: bool,
    pub reads: bool,
    pub erases: bool,
}

impl Model for Bits {
    ghost use Rattle.std.specs.Prelude.{true};
    ghost use Rattle.tree_rules.specs.Bus.Item.{Bits};

    ghost Value = { Bits };

    ghost view = { λ k. record {
      held = k.held;
      sole = k.sole;
      exclusive = k.exclusive;
      one_gift = k.one_gift;
      no_gift = k.no_gift;
      givers = k.givers;
      granted = true;
      readers = k.readers;
      eraser = k.eraser;
      reads = k.reads;
      erases = k.erases;
    } };

    ghost inverse = { λ k. record {
      held = k.held;
      sole = k.sole;
      exclusive = k.exclusive;
      one_gift = k.one_gift;
      no_gift = k.no_gift;
      givers = k.givers;
      readers = k.readers;
      eraser = k.eraser;
      reads = k.reads;
      erases = k.erases;
    } };
}

pub(crate) fn is_held(hold: Hold) -> bool
    ensures { result ≡ is_held hold }
{
    match hold {
        Hold::Shared | Hold::Exclusive => true,
        Hold::Invalid => false,
    }
}

pub(crate) fn is_shared(hold: Hold) -> bool
    ensures { result ≡ is_shared hold }
{
    match hold {
        Hold::Shared => true,
        Hold::Exclusive | Hold::Invalid => false,
    }
}

pub(crate) fn is_exclusive(hold: Hold) -> bool
    ensures { result ≡ is_exclusive hold }
{
    match hold {
        Hold::Exclusive => true,
        Hold::Shared | Hold::Invalid => false,
    }
}

/// The second wherever the first.
#[tactic(auto, unfolding(tree_rules::specs::Bus::Item::implies))]
pub(crate) fn implies(first: bool, second: bool) -> bool
    ensures { result ≡ implies first second }
{
    if first { second } else { true }
}

impl ChildFace {
    /// It has no reply and isn't answering.
    fn gives_none(&self) -> bool
        ensures { result ≡ gives_none self.now }
    {
        !self.answers && self.replies == 0
    }

    /// It has one reply, or is answering, and not both.
    fn gives_one(&self) -> bool
        ensures { result ≡ gives_one self.now }
    {
        if self.answers {
            self.replies == 0
        } else {
            self.replies == 1
        }
    }

    fn giver_holds(&self) -> bool
        ensures { result ≡ giver_holds self.now }
    {
        implies(self.answers, is_held(self.hold))
            && implies(self.replies != 0, is_shared(self.hold))
    }

    fn may_erase(&self) -> bool
        ensures { result ≡ may_erase self.now }
    {
        self.erases && is_held(self.hold)
    }
}

pub(crate) fn either(first: bool, with: bool, without: bool) -> bool
    ensures { result ≡ (if first then with else without) }
{
    if first { with } else { without }
}

impl ChildrenFacts {
    /// Of no children, where the note is of an erase or isn't.
    pub fn none(up_erase: bool) -> Self
        ensures { (note : Note) → up_erase ≡ is_up_erase note → result ≡ facts_among note [] }
    {
        ChildrenFacts {
            count: 0,
            held: false,
            sole: false,
            exclusive: false,
            one_gift: false,
            no_gift: true,
            givers: true,
            readers: true,
            eraser: !up_erase,
            reads: true,
            erases: true,
        }
    }

    fn with_child(self, child: &ChildFace, reader: bool, eraser: bool) -> Self
        requires { self.count + 1 < 2 ^ 32 }
        ensures { result ≡ with_child reader eraser child.now self }
    {
        let holds = is_held(child.hold);
        let exclusive = is_exclusive(child.hold);
        let none = child.gives_none();
        let one = child.gives_one();
        let giver = child.giver_holds();
        let may_erase = child.may_erase();
        let read = implies(reader, child.reads);
        let noted = implies(child.reads, reader);
        let erased = implies(child.erases, eraser);
        ChildrenFacts {
            count: self.count + 1,
            held: self.held | holds,
            sole: either(holds, !self.held, self.sole),
            exclusive: self.exclusive | exclusive,
            one_gift: either(none, self.one_gift, one & self.no_gift),
            no_gift: self.no_gift & none,
            givers: self.givers & giver,
            readers: self.readers & read,
            eraser: either(eraser, may_erase, self.eraser),
            reads: self.reads & noted,
            erases: self.erases & erased,
        }
    }

    /// The bits of the bus, whose parent has a parked copy or has none.
    pub(crate) fn bits(&self, parked: bool) -> Bits
        ensures { result ≡ bits_with parked self.now }
    {
        Bits {
            held: parked | self.held,
            sole: either(parked, !self.held, self.sole),
            exclusive: self.exclusive,
            one_gift: self.one_gift,
            no_gift: self.no_gift,
            givers: self.givers,
            readers: self.readers,
            eraser: self.eraser,
            reads: self.reads,
            erases: self.erases,
        }
    }

    /// Of one child more, which is a reader of the note or isn't, and its eraser or isn't.
    #[tactic(auto, using(crate::proofs::Among::one_child_more))]
    pub fn push(&mut self, child: &ChildFace, reader: bool, eraser: bool)
        requires { self.old.count + 1 < 2 ^ 32 }
        ensures { (note : Note) (cs : List Face) → self.old ≡ facts_among note cs →
            reader ≡ is_reader note (length cs) → eraser ≡ is_eraser note (length cs)
            → self.new ≡ facts_among note (cs ++ child.now ∷ []) }
    {
        *self = self.with_child(child, reader, eraser);
    }
}
