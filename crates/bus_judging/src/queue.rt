//! What the rules of a bus ask of the entries in a down list.

ghost use Rattle.std.specs.Prelude.{◌≡◌, ◌++◌, ◌∷◌, [], List, Some, if◌then◌else◌};
ghost use Rattle.bus_judging.specs.DdmTypes.declared.answers.TxKind.{TxKind};
ghost use Rattle.bus_judging.specs.TreeModel.State.Kinds.{is_kind};
ghost use Rattle.bus_judging.specs.TreeModel.State.Lists.{first_some};
ghost use Rattle.tree_rules.specs.Bus.Item.{may_follow, moves_copies};
ghost use Rattle.bus_judging.specs.Queue.{facts_of, fits_behind, with_kind};

use crate::of_ddm_types::TxKind;
use std::marker::Model;

/// What the rules of a bus ask of an item's entries in a down list.
#[derive(Clone, Copy)]
pub struct QueueFacts {
    pub(crate) first: Option<TxKind>,
    pub(crate) last: Option<TxKind>,
    pub(crate) first_move: Option<TxKind>,
    pub(crate) last_move: Option<TxKind>,
    pub(crate) fits: bool,
    pub(crate) reads: bool,
    pub(crate) brings_data: bool,
    pub(crate) erases: bool,
    pub(crate) exclusives: bool,
    pub(crate) injects: bool,
    pub(crate) only_exclusives: bool,
}

impl Model for QueueFacts {
    ghost use Rattle.bus_judging.specs.Queue.{QueueFacts};

    ghost Value = { QueueFacts };

    ghost view = { λ f. record {
      first = f.first;
      last = f.last;
      first_move = f.first_move;
      last_move = f.last_move;
      fits = f.fits;
      reads = f.reads;
      brings_data = f.brings_data;
      erases = f.erases;
      exclusives = f.exclusives;
      injects = f.injects;
      only_exclusives = f.only_exclusives;
    } };

    ghost inverse = { λ f. record {
      first = f.first;
      last = f.last;
      first_move = f.first_move;
      last_move = f.last_move;
      fits = f.fits;
      reads = f.reads;
      brings_data = f.brings_data;
      erases = f.erases;
      exclusives = f.exclusives;
      injects = f.injects;
      only_exclusives = f.only_exclusives;
    } };
}

/// Whether the one may stand behind the other.
fn may_follow(before: TxKind, kind: TxKind) -> bool
    ensures { result ≡ may_follow before kind }
{
    match before {
        TxKind::DataTx => kind == TxKind::EraseTx || kind == TxKind::ReadTx,
        TxKind::EraseTx => kind == TxKind::InjectTx || kind == TxKind::ReadTx,
        TxKind::InjectTx | TxKind::ExclusiveTx => kind == TxKind::ReadTx,
        TxKind::ReadTx | TxKind::OutTx => false,
    }
}

/// Whether it decides who has copies below.
fn moves_copies(kind: TxKind) -> bool
    ensures { result ≡ moves_copies kind }
{
    match kind {
        TxKind::DataTx | TxKind::EraseTx | TxKind::InjectTx => true,
        TxKind::ReadTx | TxKind::ExclusiveTx | TxKind::OutTx => false,
    }
}

pub(crate) fn is_kind(a: TxKind, b: TxKind) -> bool
    ensures { result ≡ is_kind a b }
{
    a == b
}

/// The first kind, where there is one, else this.
fn first_or(first: Option<TxKind>, kind: TxKind) -> Option<TxKind>
    ensures { result ≡ first_some first (Some kind) }
{
    match first {
        Some(first) => Some(first),
        None => Some(kind),
    }
}

fn if_moves(moves: bool, with: Option<TxKind>, without: Option<TxKind>) -> Option<TxKind>
    ensures { result ≡ (if moves then with else without) }
{
    if moves { with } else { without }
}

/// Whether the entries fit with one of this kind behind the last one.
fn fits_behind(last: Option<TxKind>, kind: TxKind, fits: bool) -> bool
    ensures { result ≡ fits_behind last kind fits }
{
    match last {
        Some(last) => fits && may_follow(last, kind),
        None => !is_kind(TxKind::OutTx, kind),
    }
}

impl QueueFacts {
    /// Of no entries.
    pub fn none() -> Self
        ensures { result ≡ facts_of [] }
    {
        QueueFacts {
            first: None,
            last: None,
            first_move: None,
            last_move: None,
            fits: true,
            reads: false,
            brings_data: false,
            erases: false,
            exclusives: false,
            injects: false,
            only_exclusives: true,
        }
    }

    fn with_kind(self, kind: TxKind) -> Self
        ensures { result ≡ with_kind kind self }
    {
        let moves = moves_copies(kind);
        QueueFacts {
            first: first_or(self.first, kind),
            last: Some(kind),
            first_move: if_moves(moves, first_or(self.first_move, kind), self.first_move),
            last_move: if_moves(moves, Some(kind), self.last_move),
            fits: fits_behind(self.last, kind, self.fits),
            reads: self.reads || is_kind(TxKind::ReadTx, kind),
            brings_data: self.brings_data || is_kind(TxKind::DataTx, kind),
            erases: self.erases || is_kind(TxKind::EraseTx, kind),
            exclusives: self.exclusives || is_kind(TxKind::ExclusiveTx, kind),
            injects: self.injects || is_kind(TxKind::InjectTx, kind),
            only_exclusives: self.only_exclusives && is_kind(TxKind::ExclusiveTx, kind),
        }
    }

    /// Of one entry more, behind the others.
    #[tactic(auto, using(crate::proofs::Gathered::one_more))]
    pub fn push(&mut self, kind: TxKind)
        ensures { (q : List TxKind) → self.old ≡ facts_of q → self.new ≡ facts_of (q ++ kind ∷ []) }
    {
        *self = self.with_kind(kind);
    }
}
