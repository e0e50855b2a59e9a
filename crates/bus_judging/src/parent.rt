//! What the rules of a bus ask of its parent, and whether an item keeps them.

ghost use Rattle.std.specs.Prelude.{true, ◌≡◌, ◌++◌, ◌∷◌, [], List};
ghost use Rattle.bus_judging.specs.DdmTypes.declared.answers.TxKind.{TxKind};
ghost use Rattle.bus_judging.specs.TreeModel.State.Kinds.{brings_copy, goes_up, is_kind};
ghost use Rattle.tree_rules.specs.Bus.Faces.{ChildFace as Face, ParentFace, face_above};
ghost use Rattle.tree_rules.specs.Bus.Item.{bits_of, item_holds, kept_place, one_of_three, top_holds, answering_held};
ghost use Rattle.tree_rules.specs.Bus.Item.{exclusive_alone, parked_alone, exclusive_covered, queue_in_order};
ghost use Rattle.tree_rules.specs.Bus.Item.{queue_start, inject_covered, erased_shared, hold_follows, local_noted};
ghost use Rattle.tree_rules.specs.Bus.Item.{up_read_noted, data_read, up_erase_noted, erase_end, reads_noted};
ghost use Rattle.tree_rules.specs.Bus.Item.{erases_noted, granted_held, exclusive_noted, giver, givers_held};
ghost use Rattle.tree_rules.specs.Bus.Item.{read_answered, asked_alone, one_request, request_open, request_noted};
ghost use Rattle.bus_judging.specs.Children.{facts_among};
ghost use Rattle.bus_judging.specs.Parent.{ends_in_inject, facts_at, held_behind, request_facts, starts_with};
ghost use Rattle.bus_judging.specs.Tests.{any_comes, erase_is_due, exclusive_is_due, five_by_facts, granted_erase};
ghost use Rattle.bus_judging.specs.Tests.{granted_read, is_asked, notes_erase, notes_local, notes_read};

use crate::children::{
    Bits, ChildFace, ChildrenFacts, either, implies, is_exclusive, is_held, is_shared,
};
use crate::of_ddm_types::{Hold, PendingWhy, TxKind};
use crate::queue::{QueueFacts, is_kind};
use std::marker::Model;

/// What the rules of a bus ask of an item's requests of its parent.
#[derive(Clone, Copy)]
pub struct RequestFacts {
    some: bool,
    fits: bool,
    reads: bool,
    erases: bool,
}

impl Model for RequestFacts {
    ghost use Rattle.bus_judging.specs.Parent.{RequestFacts};

    ghost Value = { RequestFacts };

    ghost view = { λ f. record { some = f.some; fits = f.fits; reads = f.reads; erases = f.erases } };

    ghost inverse = { λ f. record { some = f.some; fits = f.fits; reads = f.reads; erases = f.erases } };
}

fn goes_up(kind: TxKind) -> bool
    ensures { result ≡ goes_up kind }
{
    match kind {
        TxKind::ReadTx | TxKind::EraseTx => true,
        TxKind::DataTx | TxKind::ExclusiveTx | TxKind::InjectTx | TxKind::OutTx => false,
    }
}

impl RequestFacts {
    /// Of no requests.
    pub fn none() -> Self
        ensures { result ≡ request_facts [] }
    {
        RequestFacts {
            some: false,
            fits: true,
            reads: false,
            erases: false,
        }
    }

    /// Of one request more, behind the others.
    #[tactic(auto, using(crate::proofs::Asked::one_request_more))]
    pub fn push(&mut self, kind: TxKind)
        ensures { (rs : List TxKind) → self.old ≡ request_facts rs → self.new ≡ request_facts (rs ++ kind ∷ []) }
    {
        let first = !self.some & goes_up(kind);
        *self = RequestFacts {
            some: true,
            fits: first,
            reads: self.reads | is_kind(TxKind::ReadTx, kind),
            erases: self.erases | is_kind(TxKind::EraseTx, kind),
        };
    }
}

/// What the rules of a bus ask of its parent, of one item: what it holds and notes, whether it is answering and has a parked copy, and
/// what is gathered of the item's entries in its lists.
#[derive(Clone, Copy)]
pub struct ParentFacts {
    pub hold: Hold,
    pub note: Option<PendingWhy>,
    pub answering: bool,
    pub parked: bool,
    pub queue: QueueFacts,
    pub requests: RequestFacts,
}

impl Model for ParentFacts {
    ghost use Rattle.bus_judging.specs.Parent.{ParentFacts};

    ghost Value = { ParentFacts };

    ghost view = { λ f. record {
      hold = f.hold;
      note = f.note;
      answering = f.answering;
      parked = f.parked;
      queue = f.queue;
      requests = f.requests;
    } };

    ghost inverse = { λ f. record {
      hold = f.hold;
      note = f.note;
      answering = f.answering;
      parked = f.parked;
      queue = f.queue;
      requests = f.requests;
    } };
}

fn notes_local(note: Option<PendingWhy>) -> bool
    ensures { result ≡ notes_local note }
{
    matches!(note, Some(PendingWhy::Local(_)))
}

fn notes_read(note: Option<PendingWhy>) -> bool
    ensures { result ≡ notes_read note }
{
    matches!(note, Some(PendingWhy::UpRead(_)))
}

fn notes_erase(note: Option<PendingWhy>) -> bool
    ensures { result ≡ notes_erase note }
{
    matches!(note, Some(PendingWhy::UpErase(_)))
}

/// An erase comes first where there is a holder, and data or an inject where there is none.
fn starts_with(first: Option<TxKind>, held: bool) -> bool
    ensures { result ≡ starts_with first held }
{
    match first {
        Some(kind) => held == is_kind(TxKind::EraseTx, kind),
        None => true,
    }
}

fn ends_in_inject(last: Option<TxKind>) -> bool
    ensures { result ≡ ends_in_inject last }
{
    match last {
        Some(kind) => is_kind(TxKind::InjectTx, kind),
        None => false,
    }
}

fn brings_copy(kind: TxKind) -> bool
    ensures { result ≡ brings_copy kind }
{
    match kind {
        TxKind::DataTx | TxKind::InjectTx => true,
        TxKind::ReadTx | TxKind::EraseTx | TxKind::ExclusiveTx | TxKind::OutTx => false,
    }
}

/// Whether the item is held once all have come down.
fn held_behind(last: Option<TxKind>, held: bool) -> bool
    ensures { result ≡ held_behind last held }
{
    match last {
        Some(kind) => brings_copy(kind),
        None => held,
    }
}

fn one_of_three(a: bool, b: bool, c: bool) -> bool
    ensures { result ≡ one_of_three a b c }
{
    if a {
        !(b | c)
    } else if b {
        !c
    } else {
        c
    }
}

impl ParentFacts {
    /// Exclusive comes down to a parent that holds the item Exclusive.
    fn exclusive_is_due(&self) -> bool
        ensures { result ≡ exclusive_is_due self.now }
    {
        is_exclusive(self.hold) & self.queue.exclusives
    }

    /// The erase is still on its way up from a parent that holds the item Shared.
    fn erase_is_due(&self) -> bool
        ensures { result ≡ erase_is_due self.now }
    {
        is_shared(self.hold) & !(self.queue.exclusives | self.queue.erases)
    }

    /// It is answering, and its read isn't in its down list any more.
    fn is_asked(&self) -> bool
        ensures { result ≡ is_asked self.now }
    {
        self.answering & !self.queue.reads
    }

    fn any_comes(&self) -> bool
        ensures { result ≡ any_comes self.now.queue }
    {
        self.queue.first.is_some()
    }

    /// Who holds the item.
    fn holders_fit(&self, bits: &Bits) -> bool
        ensures { result ≡ five_by_facts self.now bits.now answering_held exclusive_alone parked_alone exclusive_covered queue_in_order }
    {
        let answering = implies(self.answering, is_held(self.hold));
        let exclusive = implies(bits.exclusive, bits.sole);
        let parked = implies(self.parked, bits.sole);
        let covered = implies(bits.exclusive, is_exclusive(self.hold));
        answering & exclusive & parked & covered & self.queue.fits
    }

    /// What comes down.
    fn queue_fits(&self, bits: &Bits) -> bool
        ensures { result ≡ five_by_facts self.now bits.now queue_start inject_covered erased_shared hold_follows local_noted }
    {
        let starts = starts_with(self.queue.first_move, bits.held);
        let covered = implies(
            ends_in_inject(self.queue.last_move),
            is_exclusive(self.hold),
        );
        let shared = implies(self.queue.erases, !bits.exclusive);
        let follows = is_held(self.hold) == held_behind(self.queue.last_move, bits.held);
        let local = implies(notes_local(self.note), bits.readers & bits.held);
        starts & covered & shared & follows & local
    }

    /// Notes of what was sent up.
    fn notes_fit(&self, bits: &Bits) -> bool
        ensures { result ≡ five_by_facts self.now bits.now up_read_noted data_read up_erase_noted erase_end reads_noted }
    {
        let up_read = notes_read(self.note);
        let up_erase = notes_erase(self.note);
        let read = implies(up_read, bits.readers & !bits.held);
        let brought = implies(self.queue.brings_data, up_read);
        let erased = implies(up_erase, bits.eraser & bits.sole);
        let due = one_of_three(
            self.exclusive_is_due(),
            self.queue.erases,
            self.erase_is_due(),
        );
        let ends = implies(up_erase, due);
        read & brought & erased & ends & bits.reads
    }

    /// Whose erase was granted, and who gives.
    fn gifts_fit(&self, bits: &Bits) -> bool
        ensures { result ≡ five_by_facts self.now bits.now erases_noted granted_held exclusive_noted giver givers_held }
    {
        let noted = notes_erase(self.note) & is_exclusive(self.hold);
        let exclusive = implies(self.queue.exclusives, noted);
        let owed = notes_local(self.note) | self.is_asked();
        let gift = either(owed, bits.one_gift, bits.no_gift);
        bits.erases & exclusive & gift & bits.givers
    }

    /// What is asked of it and what it asks for.
    fn requests_fit(&self, bits: &Bits) -> bool
        ensures { result ≡ five_by_facts self.now bits.now read_answered asked_alone one_request request_open request_noted }
    {
        let _ = bits;
        let answered = implies(self.queue.reads, self.answering);
        let none_comes = !self.any_comes();
        let alone = implies(self.is_asked(), none_comes & !notes_local(self.note));
        let open = implies(self.requests.reads, notes_read(self.note) & none_comes);
        let due = notes_erase(self.note) & self.erase_is_due();
        let noted = implies(self.requests.erases, due);
        answered & alone & self.requests.fits & open & noted
    }

    fn all_hold(&self, bits: &Bits) -> bool
        ensures { (p : ParentFace) → self.now ≡ facts_at p → result ≡ item_holds p bits.now }
    {
        let holders = self.holders_fit(bits);
        let queue = self.queue_fits(bits);
        let notes = self.notes_fit(bits);
        let gifts = self.gifts_fit(bits);
        let requests = self.requests_fit(bits);
        holders & (queue & (notes & (gifts & requests)))
    }

    /// Whether the item keeps the rules of the bus over these children, once the buses below keep theirs.
    pub fn keeps_rules(&self, children: &ChildrenFacts) -> bool
        ensures { (p : ParentFace) (cs : List Face) → self.now ≡ facts_at p →
            children.now ≡ facts_among p.note cs →
            result ≡ item_holds p (record (bits_of p cs) { granted = true }) }
    {
        self.all_hold(&children.bits(self.parked))
    }

    /// How many places in parking are kept for the item: one where an inject comes down, save where it comes first to an open read.
    pub fn kept_places(&self) -> u32
        ensures { (p : ParentFace) → self.now ≡ facts_at p → result ≡ kept_place p }
    {
        let read = notes_read(self.note) & ends_in_inject(self.queue.first);
        if self.queue.injects & !read { 1 } else { 0 }
    }

    /// Whether the item keeps the rule of the top's bus: it has a holder, no copy is parked, and only exclusives come down.
    pub fn keeps_top(&self, children: &ChildrenFacts) -> bool
        ensures { (p : ParentFace) (cs : List Face) → self.now ≡ facts_at p →
            children.now ≡ facts_among p.note cs → result ≡ top_holds p (bits_of p cs) }
    {
        let bits = children.bits(self.parked);
        bits.held & (!self.parked & self.queue.only_exclusives)
    }

    /// It has an open read, and no read of the item among its requests.
    fn was_granted_a_read(&self) -> bool
        ensures { result ≡ granted_read self.now }
    {
        let none_comes = !self.any_comes();
        notes_read(self.note) & (none_comes & !self.requests.reads)
    }

    /// Its erase was granted, and neither that nor its end comes down yet.
    fn was_granted_an_erase(&self) -> bool
        ensures { result ≡ granted_erase self.now }
    {
        let due = self.erase_is_due() & !self.requests.erases;
        notes_erase(self.note) & due
    }

    /// What the bus above sees of it, where it has so many replies of the item.
    pub fn face(&self, replies: u32) -> ChildFace
        ensures { (p : ParentFace) → self.now ≡ facts_at p → result ≡ face_above p replies }
    {
        ChildFace {
            hold: self.hold,
            reads: self.was_granted_a_read(),
            erases: self.was_granted_an_erase(),
            replies,
            answers: self.answering,
        }
    }
}
