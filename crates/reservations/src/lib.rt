//! A hart's reservation: at most one item, set by an `lr.w` and looked at by the next `sc.w`.
#![tactic(auto)]

ghost use Rattle.std.specs.Prelude.{◌≡◌, IsTrue, ◌↔◌};
ghost use Rattle.reservations.specs.Cleared.{cleared_on};

use ddm_types::ItemId;
use std::marker::Model;

/// The item that a hart holds reserved, if any.
#[derive(Clone, Copy, Debug, PartialEq, Eq)]
pub struct Reservation {
    item: Option<ItemId>,
}

impl Model for Reservation {
    ghost use Rattle.std.specs.Prelude.{ℕ, Option};

    ghost Value = { Option ℕ };

    ghost view = { λ reservation. reservation.item };

    ghost inverse = { λ value. record { item = value } };
}

impl Reservation {
    pub fn new() -> Self
        ensures { result ≡ None }
    {
        Reservation { item: None }
    }

    pub fn set(&mut self, item: ItemId)
        ensures { self.new ≡ Some item }
    {
        self.item = Some(item);
    }

    pub fn clear(&mut self)
        ensures { self.new ≡ None }
    {
        self.item = None;
    }

    pub fn clear_on(&mut self, item: ItemId)
        ensures { self.new ≡ cleared_on item self.old }
    {
        if self.covers(item) {
            self.clear();
        }
    }

    pub fn covers(&self, item: ItemId) -> bool
        ensures { IsTrue result ↔ (self.now ≡ Some item) }
    {
        self.item == Some(item)
    }

    pub fn item(&self) -> Option<ItemId>
        ensures { result ≡ self.now }
    {
        self.item
    }
}
